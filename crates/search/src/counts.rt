// In how many rules each named belt of a plan is, counted once for all picks.
ghost use Rattle.std.specs.Prelude.{◌≡◌, ℕ, ◌≤◌, ◌<◌, length, get_or};
ghost use Rattle.plan.specs.Bounds.{max_named};
ghost use Rattle.plan.specs.Plan.{plan_of, named, rule_at};
ghost use Rattle.plan.specs.Reading.{IsRule};
ghost use Rattle.route.specs.Values.{named_places, gathered_in};
ghost use Rattle.search.specs.Values.{counts_of};
ghost use Rattle.search.specs.Inner.{belts_in, with_rule};

use plan::accepted::AcceptedPlan;
use plan::bounds::{MAX_NAMED, MAX_RECORDS};
use plan::named;
use plan::read::{Literal, RuleId};
use route::masks;

// The named belts in a rule, as a mask.
fn in_rule(plan: AcceptedPlan, places: &[u8; MAX_RECORDS], rule: RuleId) -> u64
    requires places { places.now ≡ named_places plan.bytes.now }
    requires rule { IsRule plan.bytes.now rule.0 }
    ensures { result ≡ gathered_in places.now 0 (belts_in (rule_at plan.entry.bytes.now rule.0)) }
{
    let mut mask = 0;
    let mut next = plan.first_literal(rule);
    while let Some(literal) = next {
        if let Literal::OfBelt(belt, _) = plan.literal(literal) {
            mask = masks::with(mask, named::place_of(places, belt));
        }
        next = plan.next_literal(literal);
    }
    mask
}

// Adds one to the count of each belt in the mask of a rule.
fn add_rule(counts: &mut [u16; MAX_NAMED], count: usize, mask: u64)
    requires few { count ≤ max_named }
    requires below { (k : ℕ) → get_or counts.old k 0 < 65535 }
    ensures { counts.new ≡ with_rule counts.old count mask }
{
    for k in 0..count {
        if masks::has(mask, Some(k)) {
            counts[k] += 1;
        }
    }
}

// In how many rules each named belt of an accepted plan is. `places` are those of its named belts (AcceptedPlan::named_places), of which there are
// `count`. Each rule is read once.
pub fn rule_counts(plan: AcceptedPlan, places: &[u8; MAX_RECORDS], count: usize) -> [u16; MAX_NAMED]
    requires places { places.now ≡ named_places plan.bytes.now }
    requires count { count ≡ length (named (plan_of plan.bytes.now)) }
    ensures { result ≡ counts_of (plan_of plan.entry.bytes.now) }
{
    let mut counts = [0u16; MAX_NAMED];
    let mut next = plan.first_rule();
    while let Some(rule) = next {
        add_rule(&mut counts, count, in_rule(plan, places, rule));
        next = plan.next_rule(rule);
    }
    counts
}
