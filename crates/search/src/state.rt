// The search between two steps, and one step of it: the paper's six.
ghost use Rattle.std.specs.Prelude.{◌≡◌, false, List, ℕ, ◌≤◌, ◌<◌, ◌||◌, ltb};
ghost use Rattle.plan.specs.Bounds.{max_steps};
ghost use Rattle.plan.specs.Plan.{plan_of};
ghost use Rattle.route.specs.Permission.{wrong_lock};
ghost use Rattle.route.specs.Values.{has_belt, Ruled, ids_of, first_belts, lower_ids};
ghost use Rattle.search.specs.Values.{numbers_of, turn_in, Valid, is_held, first_search, IsReady, step_in, walked_in};
ghost use Rattle.search.specs.Inner.{ended_as, child_at, judged_in};

use crate::pick;
use crate::prepare::PreparedPlan;
use crate::query::Query;
use plan::bounds::{MAX_NAMED, MAX_STEPS};
use route::path::Route;
use route::relax::{Fixings, Scratch, Summary};
use route::{masks, modes, path, relax};

// How many subproblems can wait at once: each fixes as many named belts as there are older ones, or more.
pub const MAX_WAITING: usize = MAX_NAMED + 1;

// A search: the subproblems that wait are the first `count` of the array, the newest last; how many have been opened; the best route so far, and what
// it costs, or relax::UNBOUNDED where none is found. What is not in use is 0. The struct is passed by value: each field is 8 bytes wide, or an array,
// because narrower ones are slow to copy, as the tag of an Option would be. The array and its count stand for a list in fixed memory.
#[derive(Clone, Copy)]
pub struct Search {
    pub waiting: [Fixings; MAX_WAITING],
    pub count: usize,
    pub opened: u64,
    pub best: Route,
    pub bound: u64,
}

// How a search ends.
#[derive(Clone, Copy, Debug, PartialEq, Eq)]
pub enum Ending {
    // Nothing waits, and the best route is the answer.
    Found,
    // Nothing waits, and no route is permitted.
    Nothing,
    // As many are opened as the budget has, and one waits.
    Spent,
}

// What a step hands back: the next search, and its ending, or None where it goes on.
#[derive(Clone, Copy)]
pub struct Stepped {
    pub search: Search,
    pub ending: Option<Ending>,
}

// What becomes of a subproblem that was taken.
#[derive(Clone, Copy, Debug, PartialEq, Eq)]
enum Judged {
    // It is dropped.
    Drop,
    // Its relaxed route becomes the best.
    Best,
    // Its children for the named belt at this place wait.
    Branch(usize),
}

// The subproblem that fixes nothing.
const FREE: Fixings = Fixings {
    required: 0,
    forbidden: 0,
};

// Step 1: how a search ends where nothing waits.
fn at_end(bound: u64) -> Ending
    ensures { result ≡ ended_as (is_held bound) }
{
    if bound == relax::UNBOUNDED {
        return Ending::Nothing;
    }
    Ending::Found
}

// What becomes of a subproblem whose relaxed route improves on the best, and has the named belts of the mask: steps 4 to 6.
fn judge(prepared: PreparedPlan, query: Query, fixings: Fixings, mask: u64) -> Judged
    requires { (b : List ℕ)
        × Ruled b prepared.clauses.now
        × (prepared.numbers.now ≡ numbers_of (plan_of b))
        × (wrong_lock (plan_of b) query.trip.lock ≡ false) }
    ensures { (b : List ℕ)
        → Ruled b prepared.entry.clauses.now
        → prepared.entry.numbers.now ≡ numbers_of (plan_of b)
        → wrong_lock (plan_of b) query.trip.lock ≡ false
        → result ≡ judged_in b query fixings (has_belt b mask) }
{
    let setting = modes::lowest_setting(prepared.modes(), prepared.clauses, query.trip, mask);
    if setting.is_some() {
        return Judged::Best;
    }
    pick::picked(prepared, query.pick, fixings, mask).map_or(Judged::Drop, Judged::Branch)
}

// A child of a subproblem: the belt at place k is required, or else forbidden, too.
fn child(fixings: Fixings, k: usize, required: bool) -> Fixings
    requires { k < 64 }
    ensures { result ≡ child_at fixings (Some k) required }
{
    if required {
        Fixings {
            required: masks::with(fixings.required, Some(k)),
            ..fixings
        }
    } else {
        Fixings {
            forbidden: masks::with(fixings.forbidden, Some(k)),
            ..fixings
        }
    }
}

impl Search {
    // A search at its beginning: the subproblem that fixes nothing waits.
    pub fn new() -> Search
        ensures { result ≡ first_search }
    {
        Search {
            waiting: [FREE; MAX_WAITING],
            count: 1,
            opened: 0,
            best: Route::empty(),
            bound: relax::UNBOUNDED,
        }
    }

    // Whether a relaxed route within the bound comes before the best: it costs less, or as much and its belts, which `walked` has, are lower.
    fn improved_by(&self, summary: Summary, walked: &[u16; MAX_STEPS]) -> bool
        requires { summary.count ≤ max_steps }
        ensures { result
            ≡ (ltb summary.cost self.now.bound || lower_ids (ids_of (first_belts summary.count walked.now)) (ids_of self.now.best)) }
    {
        summary.cost < self.bound || path::lower(path::of_belts(walked, summary.count), self.best)
    }

    // One step. `scratch.walked` has afterwards the relaxed route of the opened subproblem, if there is one within the bound, over what it had before.
    // Only this function writes to the Search: passing the struct (1.3 KB) to a helper by value would copy it there and back. The relaxed route is
    // read from `walked` only if its cost equals the bound, or if it becomes the best.
    pub fn step(mut self, prepared: PreparedPlan, query: Query, scratch: &mut Scratch) -> Stepped
        requires ready { (b : List ℕ)
            × IsReady b prepared query
            × Valid b self }
        requires within { self.opened ≤ query.budget }
        ensures { (b : List ℕ)
            → IsReady b prepared.entry query
            → Valid b self
            → (turn_in b result ≡ step_in b query self)
            × Valid b result.search
            × (scratch.new.walked ≡ walked_in b query self scratch.old.walked) }
    {
        if self.count == 0 {
            return Stepped {
                search: self,
                ending: Some(at_end(self.bound)),
            };
        }
        if self.opened == query.budget {
            return Stepped {
                search: self,
                ending: Some(Ending::Spent),
            };
        }
        let top = self.count - 1;
        // A local copy: the compiler cannot tell that a store to `self.waiting` at a variable index leaves `self.best` as it is.
        let mut waiting = self.waiting;
        let fixings = waiting[top];
        waiting[top] = FREE;
        self.count = top;
        self.opened += 1;
        let summary = relax::relaxed_route(
            prepared.words,
            prepared.numbers,
            prepared.places,
            query.trip,
            fixings,
            self.bound,
            scratch,
        );
        if let Some(summary) = summary {
            if self.improved_by(summary, &scratch.walked) {
                match judge(prepared, query, fixings, summary.named) {
                    Judged::Drop => {}
                    Judged::Best => {
                        self.best = path::of_belts(&scratch.walked, summary.count);
                        self.bound = summary.cost;
                    }
                    Judged::Branch(k) => {
                        waiting[top] = child(fixings, k, query.order == 0);
                        waiting[top + 1] = child(fixings, k, query.order != 0);
                        self.count = top + 2;
                    }
                }
            }
        }
        self.waiting = waiting;
        Stepped {
            search: self,
            ending: None,
        }
    }
}
