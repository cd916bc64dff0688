// The relaxed route of a subproblem: the first route from s to t with every required and no forbidden belt, rules left aside.
//
// A backward pass over the words of a plan finds the cheapest way on from each junction, and its first belt (ways::ways_to). A forward walk along these
// first belts gives the route. Nothing is read of the plan's bytes.
//
// The answer has the cost of the route, if it is within a bound, how many belts it has, and which named ones. The belts themselves stay in an array
// that the caller lends: they are read only if the route becomes the best, or has to be compared with the best belt by belt (path::of_belts).
ghost use Rattle.std.specs.Prelude.{◌≡◌, ℕ, ◌^◌, ◌≤◌, ◌<◌, false, ◌&&◌, List, replicate, ltb};
ghost use Rattle.std.proofs.lemmas.List.Edits.{sets};
ghost use Rattle.plan.specs.Bounds.{max_junctions, max_named, max_steps};
ghost use Rattle.plan.specs.Plan.{Belt, plan_of, indices_of};
ghost use Rattle.plan.specs.Words.{way_limit, tail_place_at, named_at};
ghost use Rattle.route.specs.Routes.{wrong_ends};
ghost use Rattle.route.specs.Subproblems.{relaxed};
ghost use Rattle.route.specs.Values.{OfNamed, subproblem_in, at_most, summary_as, walked_of, Graph};
ghost use Rattle.route.specs.Ways.{bit, no_ways, Spared};
ghost use Rattle.route.specs.Walks.{Trail, Placing, walk_as};

use crate::path::Trip;
use crate::ways::Way;
use crate::{masks, ways};
use plan::bounds::{MAX_JUNCTIONS, MAX_RECORDS, MAX_STEPS};
use plan::words::{NAMED, NUMBERS, TAIL_PLACES, WAY_LIMIT};
use plan::{named, words};

// A subproblem: masks over the named belts of the plan, bit k for the belt at place k among them.
#[derive(Clone, Copy)]
pub struct Fixings {
    pub required: u64,
    pub forbidden: u64,
}

// A relaxed route: its cost, how many belts it has, and the mask of its named belts.
#[derive(Clone, Copy)]
pub struct Summary {
    pub cost: u64,
    pub count: usize,
    pub named: u64,
}

// Scratch space for relaxed routes, which a caller makes once and lends to each: the table of the pass, empty between calls, and the indices of the belts
// of the last route that was found, from the first place on.
#[derive(Clone, Copy)]
pub struct Scratch {
    ways: [Way; MAX_JUNCTIONS],
    pub walked: [u16; MAX_STEPS],
    pub ghost empty: { ways ≡ no_ways },
}

impl Scratch {
    pub fn new() -> Self
        ensures { result.walked ≡ replicate max_steps 0 }
    {
        Scratch {
            ways: [Way::EMPTY; MAX_JUNCTIONS],
            walked: [0; MAX_STEPS],
        }
    }
}

// A bound that every route keeps to, and that none costs as much as.
pub const UNBOUNDED: u64 = WAY_LIMIT - 1;

// A mask of named belts by their places as a mask in the order of tails: bit k of the answer is bit tail_place_at k of the mask.
fn in_order(numbers: &[u16; NUMBERS], mask: u64) -> u64
    requires { (named_at numbers.now ≤ max_named)
        × ((k : ℕ) → k < max_named → tail_place_at numbers.now k < max_named) }
    ensures { (result < 2 ^ max_named)
        × ((k : ℕ) → bit result k ≡ (ltb k (named_at numbers.now) && bit mask (tail_place_at numbers.now k))) }
{
    let mut due = 0;
    for k in 0..usize::from(numbers[NAMED]) {
        due += ((mask >> numbers[TAIL_PLACES + k]) % 2) << k;
    }
    due
}

// The walk forward from place s, where the table has a way on to place t: stores the indices of its belts in `walked`, from the first place on.
fn walk(
    places: &[u8; MAX_RECORDS],
    cost: u64,
    ways: &[Way; MAX_JUNCTIONS],
    s: usize,
    t: usize,
    walked: &mut [u16; MAX_STEPS],
) -> Summary
    requires { (t < max_junctions)
        × Placing places.now
        × ((r : List Belt) × Trail ways.now s t r) }
    ensures { (r : List Belt) → Trail ways.now s t r
        → (result ≡ walk_as places.now cost r)
        × (walked.new ≡ sets walked.old 0 (indices_of r)) }
{
    // How many links there are shows only at the last of them, so `count` is counted along.
    let mut count = 0;
    let mut seen = 0u64;
    let mut at = s;
    while at != t {
        let link = u64::from(ways[at].link);
        let belt = words::index(link);
        walked[count] = belt.0;
        count += 1;
        seen = masks::with(seen, named::place_of(places, belt));
        at = words::head(link);
    }
    Summary {
        cost,
        count,
        named: seen,
    }
}

// Clears what the pass left for the places from s on and before t.
fn clear(ways: &mut [Way; MAX_JUNCTIONS], s: usize, t: usize)
    requires { (s ≤ t)
        × (t ≤ max_junctions)
        × Spared s t ways.old }
    ensures { ways.new ≡ no_ways }
{
    ways[s..t].fill(Way::EMPTY);
}

// The relaxed route from s to t of a subproblem, if there is one that costs at most `bound`: the indices of its belts are stored in `scratch`, and what it
// has behind them does not change. `words`, `numbers` and `places` are made once for all subproblems of a plan: its belts as words (plan::words), and the
// places of its named belts (AcceptedPlan::named_places).
pub fn relaxed_route(
    words: &[u64],
    numbers: &[u16; NUMBERS],
    places: &[u8; MAX_RECORDS],
    trip: Trip,
    fixings: Fixings,
    bound: u64,
    scratch: &mut Scratch,
) -> Option<Summary>
    requires { ((b : List ℕ)
        × Graph b words.now numbers.now places.now
        × (wrong_ends (plan_of b) trip.s trip.t ≡ false)
        × OfNamed b fixings.required)
        × (bound < way_limit) }
    ensures { (b : List ℕ) → Graph b words.now numbers.now places.now
        → wrong_ends (plan_of b) trip.s trip.t ≡ false
        → OfNamed b fixings.required
        → (result ≡ summary_as b (at_most bound (relaxed (plan_of b) trip.s trip.t (subproblem_in b fixings))))
        × (scratch.new.walked
        ≡ walked_of (at_most bound (relaxed (plan_of b) trip.s trip.t (subproblem_in b fixings))) scratch.old.walked) }
{
    let s = trip.s as usize - 1;
    let t = trip.t as usize - 1;
    if t < s || fixings.required & fixings.forbidden != 0 {
        return None;
    }
    let due = in_order(numbers, fixings.required);
    let ways = &mut scratch.ways;
    let cost = ways::ways_to(words, numbers, due, fixings.forbidden, bound, s, t, ways);
    let walked = &mut scratch.walked;
    let summary = match cost {
        Some(cost) => Some(walk(places, cost, ways, s, t, walked)),
        None => None,
    };
    clear(ways, s, t);
    summary
}
