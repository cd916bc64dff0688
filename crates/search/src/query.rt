// What the planner is asked.
ghost use Rattle.std.specs.Prelude.{◌≡◌};
ghost use Rattle.search.specs.Answers.{wrong_query};

use route::path::Trip;

// A query: the trip, which belt is picked (0 to 2), which child is taken next (0 or 1), and how many subproblems may be opened. Pick and order are the
// numbers of the interface: a caller gives any, line 9 refuses some, and a step is said to do what the written one does for every number.
#[derive(Clone, Copy)]
pub struct Query {
    pub trip: Trip,
    pub pick: u64,
    pub order: u64,
    pub budget: u64,
}

// Line 9 of the refusal table: pick over 2, order over 1, or budget 0.
pub fn wrong_query(query: Query) -> bool
    ensures { result ≡ wrong_query query }
{
    query.pick > 2 || query.order > 1 || query.budget == 0
}
