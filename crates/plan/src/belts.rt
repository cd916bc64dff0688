// Lines 5 and 6 of the refusal table: belts lead to higher junctions, literals name belts or modes.
ghost use Rattle.std.specs.Prelude.{◌≡◌, false, ◌<◌, ◌≤◌};
ghost use Rattle.plan.specs.Records.{junctions};
ghost use Rattle.plan.specs.Refusals.{backward, broken2, broken5, literal_fits, misnames, broken6};
ghost use Rattle.plan.specs.Inner.{Passed4};

use crate::record::Kind;
use crate::records::Records;

// Whether a belt on the chain of junction j does not lead to a higher junction.
fn backward(plan: Records<'_>, j: usize) -> bool
    requires passed { Passed4 plan.bytes.now }
    requires first { 1 ≤ j }
    requires last { j ≤ junctions plan.bytes.now }
    ensures { result ≡ backward plan.entry.bytes.now j }
{
    let mut next = plan.link(j, 1);
    while let Some(belt) = next {
        if plan.index(belt, 2) <= j {
            return true;
        }
        next = plan.link(belt, 1);
    }
    false
}

// Line 5: whether a belt does not lead to a higher junction than the one that it leaves.
pub fn backward_belt(plan: Records<'_>) -> bool
    requires { Passed4 plan.bytes.now }
    ensures { result ≡ broken5 plan.entry.bytes.now }
{
    (1..plan.junctions() + 1).any(|j| backward(plan, j))
}

// Whether record l, a literal, names a belt record or a mode from 1 to M.
fn literal_fits(plan: Records<'_>, l: usize) -> bool
    requires { l < plan.count }
    ensures { result ≡ literal_fits plan.entry.bytes.now l }
{
    let named = plan.index(l, 4);
    if plan.field(l, 3) == 0 {
        named < plan.count && plan.is(named, Kind::Belt)
    } else {
        (1..=plan.index(0, 2)).contains(&named)
    }
}

// Whether record l is a literal that names no belt record and no mode.
fn misnames(plan: Records<'_>, l: usize) -> bool
    requires { l < plan.count }
    ensures { result ≡ misnames plan.entry.bytes.now l }
{
    plan.is(l, Kind::Literal) && !literal_fits(plan, l)
}

// Line 6: whether a literal names no belt record, or a mode outside 1 to M.
pub fn wrong_literal(plan: Records<'_>) -> bool
    ensures { result ≡ broken6 plan.entry.bytes.now }
{
    (plan.junctions() + 1..plan.count).any(|l| misnames(plan, l))
}
