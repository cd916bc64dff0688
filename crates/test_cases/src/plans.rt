// The plans that cases start from, written field by field, and the lines of text that say where a plan starts from and how it differs.
// The kinds of records stand as numbers, as in the lines of cases: many of those write a record of a kind that there is not.
ghost use Rattle.std.specs.Prelude.{◌≡◌, ◌≤◌, ◌↔◌, length, get_or, take, IfSome, IsSome};
ghost use Rattle.test_cases.specs.Lines.{numbers_in, changed};
ghost use Rattle.test_cases.specs.Plans.{blank, put_p, put_named, put_row, put_base, base_of, plan_in};

use crate::lines;
use crate::lines::Line;
use crate::records::{Bytes, CASE_BYTES, put};

// Where a plan starts from.
#[derive(Clone, Copy, Debug, PartialEq, Eq)]
pub enum Base {
    // Plan P of the paper.
    P,
    // Two junctions, 49 belts from 1 to 2 that cost 1, records 3 to 51, and rule 52, whose literals 53 to 101 each name another belt.
    Named,
    // 256 junctions in a row: a belt of the largest cost, 4294967295, leads from each to the next. The rule is "not belt 511, or mode 10" of ten modes.
    Row,
}

impl Base {
    // Where the plan of the line `= P 84 ..` starts from: P, N or R. The mark before the letter may be another.
    pub fn of(line: Line) -> Base
        ensures { result ≡ base_of (get_or line.entry.rest.now 2 10) }
    {
        match line.byte(2) {
            b'N' => Base::Named,
            b'R' => Base::Row,
            _ => Base::P,
        }
    }
}

// A plan: the first `size` bytes. The memory is fixed, and a line may say more bytes than there is room for, so the size stands beside it.
#[derive(Clone, Copy, Debug)]
pub struct Plan {
    pub bytes: Bytes,
    pub size: usize,
}

impl Plan {
    // A plan of no bytes.
    #[tactic(auto, unfolding(crate::specs::Plans::blank))]
    pub fn none() -> Plan
        ensures { (result.bytes ≡ blank)
            × (result.size ≡ 0) }
    {
        Plan {
            bytes: [0; CASE_BYTES],
            size: 0,
        }
    }

    // The plan of a line `= P 84 ..`: it starts from what the letter says, has so many bytes, and differs in the records that follow.
    pub fn read(mut line: Line) -> Plan
        ensures { result ≡ plan_in line.entry.rest.now }
    {
        let mut bytes = [0; CASE_BYTES];
        put_base(&mut bytes, Base::of(line));
        let size = line.number_or_zero() as usize;
        lines::change_records(&mut bytes, line);
        Plan { bytes, size }
    }

    // The plan with the records changed that the line has.
    pub fn changed(&self, line: Line) -> Plan
        ensures { (result.bytes ≡ changed self.now.bytes (numbers_in line.entry.rest.now))
            × (result.size ≡ self.now.size) }
    {
        let mut plan = *self;
        lines::change_records(&mut plan.bytes, line);
        plan
    }

    // The bytes of the plan; none where it is said to have more than there is room for.
    pub fn bytes(&self) -> Option<&[u8]>
        ensures value { IfSome result (λ p. p.now ≡ take self.now.size self.now.bytes) }
        ensures room { IsSome result ↔ (self.now.size ≤ length self.now.bytes) }
    {
        self.bytes.get(..self.size)
    }
}

// Writes plan P of the paper.
#[tactic(auto, unfolding(crate::specs::Plans::put_p))]
pub fn put_p(buf: &mut Bytes)
    ensures { buf.new ≡ put_p buf.old }
{
    put(buf, 0, [7, 3, 1, 7, 10, 0]);
    put(buf, 1, [1, 4, 0, 0, 0, 0]);
    put(buf, 2, [1, 6, 0, 0, 0, 0]);
    put(buf, 3, [1, 0, 0, 0, 0, 0]);
    put(buf, 4, [2, 5, 2, 3, 0, 0]);
    put(buf, 5, [2, 0, 3, 9, 0, 0]);
    put(buf, 6, [2, 0, 3, 4, 0, 0]);
    put(buf, 7, [3, 0, 8, 0, 0, 0]);
    put(buf, 8, [4, 9, 0, 0, 4, 0]);
    put(buf, 9, [4, 0, 0, 0, 6, 0]);
}

#[tactic(auto, unfolding(crate::specs::Plans::put_named))]
fn put_named(buf: &mut Bytes)
    ensures { buf.new ≡ put_named buf.old }
{
    put(buf, 0, [7, 2, 0, 52, 102, 0]);
    put(buf, 1, [1, 3, 0, 0, 0, 0]);
    put(buf, 2, [1, 0, 0, 0, 0, 0]);
    for e in 3..51u16 {
        put(buf, usize::from(e), [2, e + 1, 2, 1, 0, 0]);
        put(buf, usize::from(e + 50), [4, e + 51, 0, 0, e, 0]);
    }
    put(buf, 51, [2, 0, 2, 1, 0, 0]);
    put(buf, 52, [3, 0, 53, 0, 0, 0]);
    put(buf, 101, [4, 0, 0, 0, 51, 0]);
}

// Belt 256 + j leaves junction j.
#[tactic(auto, unfolding(crate::specs::Plans::put_row))]
fn put_row(buf: &mut Bytes)
    ensures { buf.new ≡ put_row buf.old }
{
    put(buf, 0, [7, 256, 10, 512, 515, 0]);
    for j in 1..256u16 {
        put(buf, usize::from(j), [1, 256 + j, 0, 0, 0, 0]);
        put(buf, usize::from(256 + j), [2, 0, j + 1, 65535, 65535, 0]);
    }
    put(buf, 256, [1, 0, 0, 0, 0, 0]);
    put(buf, 512, [3, 0, 513, 0, 0, 0]);
    put(buf, 513, [4, 514, 0, 0, 511, 0]);
    put(buf, 514, [4, 0, 1, 1, 10, 0]);
}

// Writes the plan that is started from.
fn put_base(buf: &mut Bytes, base: Base)
    ensures { buf.new ≡ put_base buf.old base }
{
    match base {
        Base::P => put_p(buf),
        Base::Named => put_named(buf),
        Base::Row => put_row(buf),
    }
}
