// Line 4 of the refusal table: every chain index leads to a later record of the right kind, and every record above the
// junctions is reached once. Each link is followed once; an array marks where the links lead.
ghost use Rattle.std.specs.Prelude.{◌≡◌, false, not, [], ◌∷◌, ◌<◌, ◌≤◌, length};
ghost use Rattle.std.specs.Result.{is_err};
ghost use Rattle.plan.specs.Lists.{any, upto};
ghost use Rattle.plan.specs.Records.{links_at, links};
ghost use Rattle.plan.specs.Kinds.{kind_number};
ghost use Rattle.plan.specs.Refusals.{broken2, broken4};
ghost use Rattle.plan.specs.Inner.{links_by, bump, marked_once, Followed};

use crate::bounds::MAX_RECORDS;
use crate::record::Kind;
use crate::records::Records;

// A chain index that does not lead to a later record of the right kind.
#[derive(Clone, Copy)]
struct WrongIndex;

// The mark of a record to which one more link leads: 0 none, 1 one, 2 more than one.
fn bump(mark: u8) -> u8
    ensures { result ≡ bump mark }
{
    if mark == 0 { 1 } else { 2 }
}

// Follows the chain index in field f of record r, and marks the record that it leads to.
fn follow(
    plan: Records<'_>,
    seen: &mut [u8; MAX_RECORDS],
    r: usize,
    f: usize,
    want: Kind,
) -> Result<(), WrongIndex>
    requires record { r < plan.count }
    requires field { f < 6 }
    ensures { Followed plan.entry.bytes.now (links_by plan.entry.bytes.now r ((f, kind_number want) ∷ [])) seen.old seen.new (is_err result) }
{
    let Some(i) = plan.link(r, f) else {
        return Ok(());
    };
    if plan.count <= i || i <= r || !plan.is(i, want) {
        return Err(WrongIndex);
    }
    seen[i] = bump(seen[i]);
    Ok(())
}

// Follows the chain indices of record r. Each arm repeats the chain fields of its row of the table `rows`: looking them up by the kind made a check
// slower by a fifth or more.
fn follow_record(
    plan: Records<'_>,
    seen: &mut [u8; MAX_RECORDS],
    r: usize,
) -> Result<(), WrongIndex>
    requires { r < plan.count }
    ensures { Followed plan.entry.bytes.now (links_at plan.entry.bytes.now r) seen.old seen.new (is_err result) }
{
    match plan.kind(r) {
        Ok(Kind::Header) => follow(plan, seen, r, 3, Kind::Rule),
        Ok(Kind::Junction) => follow(plan, seen, r, 1, Kind::Belt),
        Ok(Kind::Belt) => follow(plan, seen, r, 1, Kind::Belt),
        Ok(Kind::Rule) => {
            follow(plan, seen, r, 1, Kind::Rule)?;
            follow(plan, seen, r, 2, Kind::Literal)
        }
        Ok(Kind::Literal) => follow(plan, seen, r, 1, Kind::Literal),
        Err(_) => Ok(()),
    }
}

// Follows all chain indices of the plan.
fn follow_all(plan: Records<'_>, seen: &mut [u8; MAX_RECORDS]) -> Result<(), WrongIndex>
    ensures { Followed plan.entry.bytes.now (links plan.entry.bytes.now) seen.old seen.new (is_err result) }
{
    for r in 0..plan.count {
        follow_record(plan, seen, r)?;
    }
    Ok(())
}

// Whether a record from `first` on and before `end` is reached twice or never. The fold does not stop early, so that the compiler can test many records
// at a time.
fn unmet(seen: &[u8], first: usize, end: usize) -> bool
    requires order { first ≤ end }
    requires room { end ≤ length seen.now }
    ensures { result ≡ any (λ r. not (marked_once seen.now r)) (upto first end) }
{
    seen[first..end]
        .iter()
        .fold(false, |found, &mark| found | (mark != 1))
}

// Line 4: whether a chain index is wrong, or a record above the junctions is reached twice or never.
pub fn wrong_chain(plan: Records<'_>) -> bool
    requires { broken2 plan.bytes.now ≡ false }
    ensures { result ≡ broken4 plan.entry.bytes.now }
{
    let mut seen = [0; MAX_RECORDS];
    follow_all(plan, &mut seen).is_err() || unmet(&seen, plan.junctions() + 1, plan.count)
}
