// The rule test: whether every rule of a plan is met by a route under a setting of the modes. It goes by the clauses of the plan
// (clauses::decode) and by the mask of the named belts on the route (masks::on_route), which are made once for all settings.
ghost use Rattle.std.specs.Prelude.{◌≡◌, List, ℕ, ◌≤◌};
ghost use Rattle.plan.specs.Bounds.{max_modes};
ghost use Rattle.plan.specs.Plan.{plan_of};
ghost use Rattle.route.specs.Permission.{passes, is_on, all_met};
ghost use Rattle.route.specs.Values.{Known, route_in, has_belt, Ruled};
ghost use Rattle.route.specs.Inner.{LowCoded, is_true};

use crate::clauses::{Coded, FIELD};
use crate::path::Route;
use crate::{clauses, masks};
use plan::accepted::AcceptedPlan;
use plan::bounds::MAX_RECORDS;
use plan::named;
use plan::read::ModeId;

// Whether a mode is in a set of modes, as a setting or the mask of a lock: bit m-1 is for mode m.
pub fn is_on(modes: u64, mode: ModeId) -> bool
    requires { (1 ≤ mode.0)
        × (mode.0 ≤ max_modes) }
    ensures { result ≡ is_on modes mode.0 }
{
    (modes >> (mode.0 - 1)) % 2 == 1
}

// Whether a literal holds, where the named belts of the mask `belts` are on the route.
fn holds(literal: Coded, belts: u64, setting: u16) -> bool
    requires { LowCoded literal }
    ensures { result ≡ is_true literal belts setting }
{
    match literal {
        Coded::Belt(place, wanted) => masks::has(belts, Some(place)) == wanted,
        Coded::Mode(mode, wanted) => is_on(u64::from(setting), mode) == wanted,
    }
}

// Whether every rule has a literal that holds, where the named belts of the mask `belts` are on the route. The scan of a rule stops at its first
// literal that holds. `clauses` are those of a plan (clauses::decode), and the rules are those of any plan that has these clauses.
pub fn all_met(clauses: &[u32], belts: u64, setting: u16) -> bool
    requires { (b : List ℕ)
        × Ruled b clauses.now }
    ensures { (b : List ℕ)
        → Ruled b clauses.now
        → result ≡ all_met (plan_of b).rules (has_belt b belts) setting }
{
    // A rule of the project asks for this form, two loops of which the outer one has a label (docs/DECISIONS.md, 15).
    let mut next = clauses[0];
    'rules: while next != 0 {
        let rule = clauses[next as usize];
        next = rule % FIELD;
        let mut literal = rule / FIELD;
        while literal != 0 {
            let entry = clauses[literal as usize];
            if holds(clauses::coded_of(entry), belts, setting) {
                continue 'rules;
            }
            literal = entry % FIELD;
        }
        return false;
    }
    true
}

// Whether every rule is met by the route under the setting.
pub fn met_by(plan: AcceptedPlan, route: Route, setting: u16) -> bool
    requires { Known plan.bytes.now route }
    ensures { result ≡ all_met (plan_of plan.entry.bytes.now).rules (passes (route_in plan.entry.bytes.now route)) setting }
{
    let places = plan.named_places();
    let mut clauses = [0u32; MAX_RECORDS];
    clauses::decode(plan, &places, &mut clauses);
    all_met(&clauses, masks::on_route(&places, route), setting)
}
