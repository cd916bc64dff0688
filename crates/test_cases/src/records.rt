// Records of six 16-bit fields, written into bytes that have room for more of them than a plan may have.
ghost use Rattle.std.specs.Prelude.{◌≡◌};
ghost use Rattle.test_cases.specs.Records.{put_field, put_record};

use plan::bounds::{MAX_RECORDS, RECORD_BYTES};
use plan::record;

// The records of a case: two more than a plan may have.
const CASE_RECORDS: usize = MAX_RECORDS + 2;

pub const CASE_BYTES: usize = RECORD_BYTES * CASE_RECORDS;

// The bytes of a case.
pub type Bytes = [u8; CASE_BYTES];

// Writes field f of record r, if there is room.
#[tactic(auto, unfolding(crate::specs::Records::put_field))]
pub fn put_field(buf: &mut Bytes, r: usize, f: usize, v: u16)
    ensures { buf.new ≡ put_field buf.old r f v }
{
    if r < CASE_RECORDS && f < 6 {
        record::put_field(buf, RECORD_BYTES * r + 2 * f, v);
    }
}

// Writes record r, if there is room.
#[tactic(auto, unfolding(crate::specs::Records::put_record))]
pub fn put(buf: &mut Bytes, r: usize, f: [u16; 6])
    ensures { buf.new ≡ put_record buf.old r f }
{
    if r < CASE_RECORDS {
        let [f0, f1, f2, f3, f4, f5] = f;
        record::put_record(buf, r, [f0, f1, f2, f3, f4, f5]);
    }
}
