// The backward pass over words (plan::words): for each place, by the number of its junction less 1, the cost of the way on to t and its first belt.
//
// A word has the cost of a belt above its link: its index, and the place that it leads to. So over the belts from one junction the least sum of the
// way on from the head and of the word is the first way: the cheapest, and of equal ones that whose first belt has the lowest index. The sum has
// LINK_LIMIT times the cost of the way, and the link of its first belt (Way).
//
// A required belt is a cut: no other belt of a route leads over the junction that it leaves. So the pass goes from required belt to required belt, from
// the highest tail down, and fills the places between the head of the next one and the tail of the last (`piece`). Places under a required belt are
// passed over.
ghost use Rattle.std.specs.Prelude.{◌≡◌, ◌↔◌, IsTrue, ℕ, suc, ◌/◌, ◌%◌, ◌^◌, ◌≤◌, ◌<◌, List, length};
ghost use Rattle.std.proofs.Math.Option.{some};
ghost use Rattle.plan.specs.Bounds.{max_junctions, max_named};
ghost use Rattle.plan.specs.Plan.{Belt, plan_of};
ghost use Rattle.plan.specs.Words.{way_limit, far, tail_place_at};
ghost use Rattle.plan.specs.Tables.{Below, Rising, Sound};
ghost use Rattle.route.specs.Subproblems.{Subproblem, relaxed};
ghost use Rattle.route.specs.Values.{at_most};
ghost use Rattle.route.specs.Ways.{way_of, no_ways, cost_of, Spared, Asked, Traces};
ghost use Rattle.route.specs.Ways.{Low, Room, Near, OpenArc, Least, Rows, Piece, Ready, Stands};

use plan::bounds::MAX_JUNCTIONS;
use plan::words;
use plan::words::{FAR, LINK_LIMIT, MARKS, NUMBERS, TAIL_PLACES, TAILS};

// The way on from a place: LINK_LIMIT times its cost, and the link of its first belt. Where there is none the cost is FAR and no Option: what is added to
// it is no way either, so the loops add and compare with no test.
#[derive(Clone, Copy)]
pub struct Way {
    pub cost: u64,
    pub link: u32,
}

impl Way {
    // What the table has for a place that is not filled.
    pub const EMPTY: Way = Way { cost: 0, link: 0 };

    // The way whose cost and link a sum has.
    fn of(sum: u64) -> Self
        ensures { result ≡ way_of sum }
    {
        Way {
            cost: sum - sum % LINK_LIMIT,
            link: (sum % LINK_LIMIT) as u32,
        }
    }
}

// The least of `from` and the ways over the words from place `first` on and before place `last` whose heads are no further than `nearest`. Heads
// rise: the first one past `nearest` ends the loop.
fn row(
    words: &[u64],
    first: usize,
    last: usize,
    ways: &[Way; MAX_JUNCTIONS],
    nearest: usize,
    from: u64,
) -> u64
    requires { (last ≤ length words.now)
        × Below words.now
        × Low ways.now
        × Rising words.now first last }
    ensures { Least words.now (Near words.now nearest) first last ways.now from result }
{
    let mut least = from;
    for i in first..last {
        let word = words[i];
        let head = words::head(word);
        if nearest < head {
            return least;
        }
        least = least.min(ways[head].cost + word);
    }
    least
}

// Whether the named belt of the word at place i is allowed: the mask `forbidden` does not have its place.
fn is_allowed(numbers: &[u16; NUMBERS], forbidden: u64, i: usize) -> bool
    requires { (i < max_named)
        × (tail_place_at numbers.now i < max_named) }
    ensures { IsTrue result ↔ (forbidden / 2 ^ tail_place_at numbers.now i % 2 ≡ 0) }
{
    (forbidden >> numbers[TAIL_PLACES + i]) % 2 == 0
}

// The same over words of named belts, from no way, without those whose places the mask `forbidden` has. Their heads don't rise, so each is asked: one
// function for both rows, which asks a closure for each word, could not end where heads go past `nearest`.
fn row_named(
    words: &[u64],
    numbers: &[u16; NUMBERS],
    first: usize,
    last: usize,
    ways: &[Way; MAX_JUNCTIONS],
    nearest: usize,
    forbidden: u64,
) -> u64
    requires { Sound words.now numbers.now
        × (last ≤ max_named)
        × Low ways.now }
    ensures { Least words.now (OpenArc words.now numbers.now nearest forbidden)
        first last ways.now far result }
{
    let mut least = FAR;
    for i in first..last {
        let word = words[i];
        let head = words::head(word);
        if head <= nearest && is_allowed(numbers, forbidden, i) {
            least = least.min(ways[head].cost + word);
        }
    }
    least
}

// The least of both rows of place u.
fn least_at(
    words: &[u64],
    numbers: &[u16; NUMBERS],
    forbidden: u64,
    ways: &[Way; MAX_JUNCTIONS],
    nearest: usize,
    u: usize,
) -> u64
    requires { Sound words.now numbers.now
        × Low ways.now
        × (u < max_junctions) }
    ensures { Rows words.now numbers.now forbidden nearest ways.now u result }
{
    let next = u + 1;
    let least = row_named(
        words,
        numbers,
        usize::from(numbers[MARKS + u]),
        usize::from(numbers[MARKS + next]),
        ways,
        nearest,
        forbidden,
    );
    row(
        words,
        usize::from(numbers[u]),
        usize::from(numbers[next]),
        ways,
        nearest,
        least,
    )
}

// The pass over one piece: the places from `low` on and before `nearest`, backwards. Of whatever plan and subproblem the arrays are, if no required belt
// leaves a junction of the piece and the way on from `nearest` is known, the ways on from all of them are known then.
fn piece(
    words: &[u64],
    numbers: &[u16; NUMBERS],
    forbidden: u64,
    low: usize,
    nearest: usize,
    ways: &mut [Way; MAX_JUNCTIONS],
)
    requires { Sound words.now numbers.now
        × Room ways.old
        × (nearest < max_junctions) }
    ensures { Room ways.new
        × ((s t : ℕ) → s ≤ low → nearest ≤ t → Spared s t ways.old → Spared s t ways.new)
        × ((b : List ℕ) (x : Subproblem) (due t : ℕ) → Piece b x words.now numbers.now due forbidden t low nearest
        → Ready b x t ways.old nearest → Stands b x t low nearest ways.new) }
{
    for u in (low..nearest).rev() {
        ways[u] = Way::of(least_at(words, numbers, forbidden, ways, nearest, u));
    }
}

// The pass: the cost of the way on from place s, where there is one of at most `bound`. Required belts are taken from the highest tail down. There is no
// route where the next one leaves a place before s, or leads past the tail of the last one, or past t. Else the places from its head to the last tail are
// a piece. Only places from s on and before t are written: of a plan no belt leads to a place at or before the one that it leaves, and with the test for
// it this holds whatever the arrays stand for.
pub fn ways_to(
    words: &[u64],
    numbers: &[u16; NUMBERS],
    due: u64,
    forbidden: u64,
    bound: u64,
    s: usize,
    t: usize,
    ways: &mut [Way; MAX_JUNCTIONS],
) -> Option<u64>
    requires { Sound words.now numbers.now
        × (ways.old ≡ no_ways)
        × (s ≤ t)
        × (t < max_junctions)
        × (due < 2 ^ max_named)
        × (bound < way_limit) }
    ensures { Spared s t ways.new
        × ((b : List ℕ) (x : Subproblem) → Asked b x words.now numbers.now due forbidden t
        → (result ≡ cost_of (at_most bound (relaxed (plan_of b) (suc s) (suc t) x)))
        × ((r : List Belt) → at_most bound (relaxed (plan_of b) (suc s) (suc t) x) ≡ some r → Traces ways.new r)) }
{
    let limit = bound * LINK_LIMIT + (LINK_LIMIT - 1);
    // The bits of `due` from the highest down: an iterator over them would be a type with a proof of its own, for this loop alone.
    let mut left = due;
    let mut nearest = t;
    while left != 0 {
        let k = left.ilog2() as usize;
        let tail = usize::from(numbers[TAILS + k]);
        let word = words[k];
        let low = words::head(word);
        if tail < s || low <= tail || nearest < low {
            return None;
        }
        piece(words, numbers, forbidden, low, nearest, ways);
        let way = ways[low].cost + word;
        if limit < way {
            return None;
        }
        ways[tail] = Way::of(way);
        nearest = tail;
        left -= 1 << k;
    }
    piece(words, numbers, forbidden, s, nearest, ways);
    let cost = ways[s].cost;
    if limit < cost {
        return None;
    }
    Some(cost / LINK_LIMIT)
}
