// Routes: what is asked of one, and its belts: whether they are the plan's, whether they connect, what they cost,
// and which of two that cost as much comes before the other.
ghost use Rattle.std.specs.Prelude.{◌≡◌, ℕ, ◌≤◌, ◌<◌, not, length};
ghost use Rattle.plan.specs.Bounds.{max_steps};
ghost use Rattle.plan.specs.Lists.{all, mem, within};
ghost use Rattle.plan.specs.Plan.{plan_of, indices_of};
ghost use Rattle.route.specs.Routes.{wrong_ends, connects, cost, cost_limit};
ghost use Rattle.route.specs.Permission.{no_lock, wrong_lock};
ghost use Rattle.route.specs.Values.{ids_of, Known, route_in, first_belts, lower_ids};

pub use crate::belts::Route;
use plan::accepted::AcceptedPlan;
use plan::bounds::{FIELD_LIMIT, MAX_STEPS};
use plan::read::BeltId;

// Every route costs less. A sheet holds a cost in three fields.
pub const COST_LIMIT: u64 = (FIELD_LIMIT * FIELD_LIMIT * FIELD_LIMIT) as u64;

// The modes that the depot sets. Bit m-1 is for mode m: in `mask` it says that the mode is locked, in `values` that it is locked on.
#[derive(Clone, Copy)]
pub struct Lock {
    pub mask: u64,
    pub values: u64,
}

// The lock that locks no mode.
pub fn no_lock() -> Lock
    ensures { result ≡ no_lock }
{
    Lock { mask: 0, values: 0 }
}

// What a route is asked or checked for: it leads from junction s to junction t, and is permitted under the lock.
#[derive(Clone, Copy)]
pub struct Trip {
    pub s: u64,
    pub t: u64,
    pub lock: Lock,
}

// The route of the first `count` belts of an array of their numbers.
pub fn of_belts(numbers: &[u16; MAX_STEPS], count: usize) -> Route
    requires { (count ≤ max_steps)
        × (length numbers.now ≡ max_steps) }
    ensures { result ≡ first_belts count numbers.now }
{
    let mut belts = [BeltId(0); MAX_STEPS];
    for k in 0..count {
        belts[k] = BeltId(numbers[k]);
    }
    Route { count, belts }
}

// Whether a number is no junction of the plan.
fn outside(plan: AcceptedPlan, j: u64) -> bool
    ensures { result ≡ not (within 1 j (plan_of plan.entry.bytes.now).junctions) }
{
    !(1..=plan.junctions() as u64).contains(&j)
}

// Line 8 of the refusal table: whether s or t is no junction of the plan.
pub fn wrong_ends(plan: AcceptedPlan, trip: Trip) -> bool
    ensures { result ≡ wrong_ends (plan_of plan.entry.bytes.now) trip.s trip.t }
{
    outside(plan, trip.s) || outside(plan, trip.t)
}

// Line 15 of the refusal table: whether the mask has a bit at or above the number of modes, or the values have one outside the mask.
pub fn wrong_lock(plan: AcceptedPlan, lock: Lock) -> bool
    ensures { result ≡ wrong_lock (plan_of plan.entry.bytes.now) lock }
{
    (1u64 << plan.modes()) <= lock.mask || lock.values & lock.mask != lock.values
}

// Whether every belt of the route is a belt of the plan.
pub fn are_belts(plan: AcceptedPlan, route: Route) -> bool
    ensures { result ≡ all (λ (e : ℕ). mem e (indices_of (plan_of plan.entry.bytes.now).belts)) (ids_of route) }
{
    route.belts().iter().all(|belt| plan.is_belt(*belt))
}

// Whether the belts lead from s to t, each leaving where the last arrived.
pub fn connects(plan: AcceptedPlan, route: Route, s: usize, t: usize) -> bool
    requires { Known plan.bytes.now route
        × (1 ≤ s)
        × (s ≤ (plan_of plan.bytes.now).junctions) }
    ensures { result ≡ connects s t (route_in plan.entry.bytes.now route) }
{
    let mut at = s;
    for belt in route.belts() {
        if !plan.leaves(*belt, at) {
            return false;
        }
        at = plan.leads_to(*belt);
    }
    at == t
}

// The cost of the route, the sum of its belts' costs.
pub fn cost(plan: AcceptedPlan, route: Route) -> u64
    requires { Known plan.bytes.now route }
    ensures { (result ≡ cost (route_in plan.entry.bytes.now route))
        × (result < cost_limit) }
{
    let mut sum = 0;
    for belt in route.belts() {
        sum += plan.cost(*belt);
    }
    sum
}

// The order of routes that cost as much, by belt index: whether at the first difference route a has the lower belt. A proper prefix is lower.
pub fn lower(a: Route, b: Route) -> bool
    ensures { result ≡ lower_ids (ids_of a) (ids_of b) }
{
    a.belts() < b.belts()
}
