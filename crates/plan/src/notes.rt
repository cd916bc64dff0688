// Line 7 of the refusal table, and the marks of the named belts, those in some rule.
ghost use Rattle.std.specs.Prelude.{◌≡◌, suc, ◌<◌, ◌≤◌, length, eqb};
ghost use Rattle.plan.specs.Bounds.{max_records};
ghost use Rattle.plan.specs.Lists.{count, upto};
ghost use Rattle.plan.specs.Records.{records, junctions};
ghost use Rattle.plan.specs.Refusals.{broken7};
ghost use Rattle.plan.specs.Inner.{Passed6};
ghost use Rattle.plan.specs.Inner.{names_belt, noted};

use crate::bounds::{MAX_NAMED, MAX_RECORDS};
use crate::record;
use crate::record::Kind;
use crate::records::Records;

// Whether record l is a literal of a belt.
fn names_belt(plan: Records<'_>, l: usize) -> bool
    requires { l < plan.count }
    ensures { result ≡ names_belt plan.entry.bytes.now l }
{
    plan.is(l, Kind::Literal) && plan.field(l, 3) == 0
}

// Marks each belt that a literal of the plan names.
fn mark_named(plan: Records<'_>, marks: &mut [u8])
    requires passed { Passed6 plan.bytes.now }
    requires room { length marks.old ≡ max_records }
    ensures { marks.new ≡ noted plan.entry.bytes.now marks.old (upto (suc (junctions plan.entry.bytes.now)) (records plan.entry.bytes.now)) }
{
    for l in plan.junctions() + 1..plan.count {
        if names_belt(plan, l) {
            marks[plan.index(l, 4)] = 1;
        }
    }
}

// Marks each belt that a literal names.
pub fn note_named(p: &[u8], marks: &mut [u8])
    requires { Passed6 p.now
        × (length marks.old ≡ max_records) }
    ensures { marks.new ≡ noted p.now marks.old (upto (suc (junctions p.now)) (records p.now)) }
{
    let plan = Records {
        bytes: p,
        count: record::records(p),
    };
    mark_named(plan, marks);
}

// How many marks there are. The count has 16 bits, so that the compiler can count many marks at a time.
fn count_marks(marks: &[u8]) -> u16
    requires { length marks.now ≤ max_records }
    ensures { result ≡ count (λ mark. eqb mark 1) marks.now }
{
    marks.iter().map(|&mark| u16::from(mark == 1)).sum()
}

// Line 7: whether there are over 48 named belts.
pub fn many_named(plan: Records<'_>) -> bool
    requires { Passed6 plan.bytes.now }
    ensures { result ≡ broken7 plan.entry.bytes.now }
{
    let mut marks = [0; MAX_RECORDS];
    mark_named(plan, &mut marks);
    usize::from(count_marks(&marks[..plan.count])) > MAX_NAMED
}
