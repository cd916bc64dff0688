// The belt that a subproblem is branched on: the three picks. Belts are told by their places among the named belts.
ghost use Rattle.std.specs.Prelude.{◌≡◌, ℕ, ◌≤◌};
ghost use mathlib.Core.List.{List, head?};
ghost use Rattle.plan.specs.Bounds.{max_named};
ghost use Rattle.plan.specs.Plan.{plan_of, named};
ghost use Rattle.plan.specs.Reading.{Accepted};
ghost use Rattle.plan.specs.Words.{named_at};
ghost use Rattle.route.specs.Permission.{find, otherwise};
ghost use Rattle.route.specs.Values.{in_mask, subproblem_in, has_belt};
ghost use Rattle.search.specs.Branching.{highest, pick_of};
ghost use Rattle.search.specs.Values.{numbers_of, count_at, picked_place};
ghost use Rattle.search.specs.Inner.{unfixed_places, at_place};

use crate::prepare::PreparedPlan;
use route::masks;
use route::relax::Fixings;

// The lowest unfixed belt in a mask: its place is the number of trailing zeros of the mask without the fixed belts.
fn lowest_in(fixings: Fixings, count: usize, mask: u64) -> Option<usize>
    requires { count ≤ max_named }
    ensures { result ≡ at_place (find (λ (k : ℕ). in_mask mask (Some k)) (unfixed_places fixings count)) }
{
    let fixed = fixings.required | fixings.forbidden;
    let k = ((mask | fixed) ^ fixed).trailing_zeros() as usize;
    (k < count).then_some(k)
}

// The lowest unfixed belt.
fn lowest(fixings: Fixings, count: usize) -> Option<usize>
    requires { count ≤ max_named }
    ensures { result ≡ at_place (head? (unfixed_places fixings count)) }
{
    lowest_in(fixings, count, u64::MAX)
}

// The unfixed belt in most rules, the lowest of equals: the loop runs downwards over the places, and a count that equals the highest so far replaces
// it. It is no `max_by_key`, whose contract leaves open which of equals is answered unless its steps are followed one by one.
fn busiest(fixings: Fixings, prepared: PreparedPlan) -> Option<usize>
    requires { named_at prepared.numbers.now ≤ max_named }
    ensures { result
        ≡ at_place (highest (count_at prepared.entry.numbers.now) (unfixed_places fixings (named_at prepared.entry.numbers.now))) }
{
    let fixed = fixings.required | fixings.forbidden;
    let mut best = None;
    for k in (0..prepared.named()).rev() {
        if masks::has(fixed, Some(k)) {
            continue;
        }
        let rules = prepared.rules_at(k);
        match best {
            Some(other) if rules < prepared.rules_at(other) => {}
            _ => best = Some(k),
        }
    }
    best
}

// The lowest unfixed belt in a mask, else the lowest.
fn lowest_on(fixings: Fixings, count: usize, mask: u64) -> Option<usize>
    requires { count ≤ max_named }
    ensures { result ≡ at_place (otherwise (find (λ (k : ℕ). in_mask mask (Some k)) (unfixed_places fixings count)) (head? (unfixed_places fixings count))) }
{
    lowest_in(fixings, count, mask).or(lowest(fixings, count))
}

// The place of the belt picked, of a subproblem and its relaxed route; None where no named belt is unfixed. `mask` has the named belts of
// the route: nothing else of it matters. Nor does anything of the plan but its numbers (prepare::prepare): the belt is picked for any plan that has
// them. Pick 2 is that of every other number, too: line 9 refuses those before a search begins.
pub fn picked(prepared: PreparedPlan, pick: u64, fixings: Fixings, mask: u64) -> Option<usize>
    requires { (b : List ℕ)
        × Accepted b
        × (prepared.numbers.now ≡ numbers_of (plan_of b)) }
    ensures { (b : List ℕ)
        → Accepted b
        → prepared.entry.numbers.now ≡ numbers_of (plan_of b)
        → result ≡ picked_place (named (plan_of b)) (pick_of pick (plan_of b) (subproblem_in b fixings) (has_belt b mask)) }
{
    let count = prepared.named();
    match pick {
        0 => lowest(fixings, count),
        1 => busiest(fixings, prepared),
        _ => lowest_on(fixings, count, mask),
    }
}
