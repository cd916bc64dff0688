// Fields of 12-byte records (paper 01, "Plan bytes"): how they are read, and how they are written.
ghost use Rattle.std.specs.Prelude.{◌≡◌, ◌+◌, ◌*◌, ◌<◌, ◌≤◌, length};
ghost use Rattle.plan.specs.Bounds.{record_bytes, field_limit};
ghost use Rattle.plan.specs.Lists.{joined};
ghost use Rattle.plan.specs.Records.{field, records, field_bytes, placed};
ghost use Rattle.plan.specs.Kinds.{kind_number, Decodes};

use crate::bounds::RECORD_BYTES;

// The kinds of records. The number of its kind stands in field 0 of a record.
#[derive(Clone, Copy, Debug, PartialEq, Eq)]
pub enum Kind {
    Junction = 1,
    Belt = 2,
    Rule = 3,
    Literal = 4,
    Header = 7,
}

impl From<Kind> for u16 {
    ghost from_gives = { λ k n. n ≡ kind_number k };

    fn from(kind: Kind) -> u16 {
        kind as u16
    }
}

// The numbers of the kinds.
pub const JUNCTION: u16 = Kind::Junction as u16;

pub const BELT: u16 = Kind::Belt as u16;

pub const RULE: u16 = Kind::Rule as u16;

pub const LITERAL: u16 = Kind::Literal as u16;

pub const HEADER: u16 = Kind::Header as u16;

// A number that no kind has.
#[derive(Clone, Copy, Debug, PartialEq, Eq)]
pub struct UnknownKind(pub u16);

impl TryFrom<u16> for Kind {
    type Error = UnknownKind;

    ghost try_from_gives = { Decodes };

    fn try_from(number: u16) -> Result<Self, UnknownKind> {
        match number {
            1 => Ok(Kind::Junction),
            2 => Ok(Kind::Belt),
            3 => Ok(Kind::Rule),
            4 => Ok(Kind::Literal),
            7 => Ok(Kind::Header),
            _ => Err(UnknownKind(number)),
        }
    }
}

// Field f of record r, high byte first.
pub fn field(p: &[u8], r: usize, f: usize) -> u16
    requires { (f < 6)
        × (record_bytes * r + record_bytes ≤ length p.now) }
    ensures { result ≡ field p.now r f }
{
    let at = RECORD_BYTES * r + 2 * f;
    // Not u16::from_be_bytes: the compiler then compares fields with constants whose bytes are exchanged, and a check takes a fifth longer.
    u16::from(p[at]) * 256 + u16::from(p[at + 1])
}

// Field f of record r, as an index or a count.
pub fn index(p: &[u8], r: usize, f: usize) -> usize
    requires { (f < 6)
        × (record_bytes * r + record_bytes ≤ length p.now) }
    ensures { (result ≡ field p.now r f)
        × (result < field_limit) }
{
    usize::from(field(p, r, f))
}

// N, the count of records.
pub fn records(p: &[u8]) -> usize
    requires { record_bytes ≤ length p.now }
    ensures { (result ≡ records p.now)
        × (result < field_limit) }
{
    index(p, 0, 4)
}

// Writes a field at offset `at`, high byte first.
pub fn put_field(out: &mut [u8], at: usize, f: u16)
    requires { at + 2 ≤ length out.old }
    ensures { out.new ≡ placed out.old at (field_bytes f) }
{
    out[at..at + 2].copy_from_slice(&f.to_be_bytes());
}

// Writes record i, its six fields.
pub fn put_record(out: &mut [u8], i: usize, fields: [u16; 6])
    requires { record_bytes * i + record_bytes ≤ length out.old }
    ensures { out.new ≡ placed out.old (record_bytes * i) (joined field_bytes fields) }
{
    for (f, &value) in fields.iter().enumerate() {
        put_field(out, RECORD_BYTES * i + 2 * f, value);
    }
}
