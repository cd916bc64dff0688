// The records of a plan: the bytes, once their size is right, and the count of records.
ghost use Rattle.std.specs.Prelude.{◌≡◌, true, false, ◌*◌, ◌<◌, ◌≤◌, length, eqb, MatchOption};
ghost use Rattle.plan.specs.Bounds.{record_bytes, field_limit, max_records};
ghost use Rattle.plan.specs.Records.{field, records, junctions};
ghost use Rattle.plan.specs.Kinds.{kind_number, Decodes};
ghost use Rattle.plan.specs.Refusals.{broken1};

use crate::bounds::{MAX_PLAN_BYTES, MIN_PLAN_BYTES, RECORD_BYTES};
use crate::record;
use crate::record::{Kind, UnknownKind};

// Bytes that do not break line 1 of the refusal table, and their count of records.
#[derive(Clone, Copy)]
pub struct Records<'a> {
    pub bytes: &'a [u8],
    pub count: usize,
    pub ghost counted: { count ≡ records bytes.now },
    pub ghost whole: { length bytes.now ≡ record_bytes * count },
    pub ghost some: { 2 ≤ count },
    pub ghost few: { count ≤ max_records },
}

impl<'a> Records<'a> {
    // The records, unless line 1 is broken: the plan is under 24 or over 24,576 bytes, or not 12 times its count of records.
    pub fn new(bytes: &'a [u8]) -> Option<Records<'a>>
        ensures { MatchOption result (broken1 bytes.now ≡ true) (λ plan. (broken1 plan.bytes.now ≡ false) × (plan.bytes.now ≡ bytes.now)) }
    {
        if !(MIN_PLAN_BYTES..=MAX_PLAN_BYTES).contains(&bytes.len()) {
            return None;
        }
        let count = record::records(bytes);
        if bytes.len() != RECORD_BYTES * count {
            return None;
        }
        Some(Records { bytes, count })
    }

    // Field f of record r.
    pub fn field(self, r: usize, f: usize) -> u16
        requires record { r < self.count }
        requires field { f < 6 }
        ensures { result ≡ field self.entry.bytes.now r f }
    {
        record::field(self.bytes, r, f)
    }

    // Field f of record r, as an index or a count.
    pub fn index(self, r: usize, f: usize) -> usize
        requires record { r < self.count }
        requires field { f < 6 }
        ensures value { result ≡ field self.entry.bytes.now r f }
        ensures limit { result < field_limit }
    {
        usize::from(self.field(r, f))
    }

    // The index in chain field f of record r; none at the end of a chain, where the field is 0.
    pub fn link(self, r: usize, f: usize) -> Option<usize>
        requires record { r < self.count }
        requires field { f < 6 }
        ensures { MatchOption result (field self.entry.bytes.now r f ≡ 0) (λ i. (i ≡ field self.entry.bytes.now r f) × (0 < i)) }
    {
        match self.index(r, f) {
            0 => None,
            i => Some(i),
        }
    }

    // The kind of record r.
    pub fn kind(self, r: usize) -> Result<Kind, UnknownKind>
        requires { r < self.count }
        ensures { Decodes (field self.entry.bytes.now r 0) result }
    {
        Kind::try_from(self.field(r, 0))
    }

    // Whether record r is of this kind.
    pub fn is(self, r: usize, kind: Kind) -> bool
        requires { r < self.count }
        ensures { result ≡ eqb (field self.entry.bytes.now r 0) (kind_number kind) }
    {
        self.field(r, 0) == u16::from(kind)
    }

    // J, the count of junctions.
    pub fn junctions(self) -> usize
        ensures value { result ≡ junctions self.entry.bytes.now }
        ensures limit { result < field_limit }
    {
        self.index(0, 1)
    }
}
