// The search from its beginning to its ending.
ghost use Rattle.std.specs.Prelude.{◌≡◌, List, ℕ};
ghost use Rattle.search.specs.Search.{run};
ghost use Rattle.search.specs.Answers.{problem_in};
ghost use Rattle.search.specs.Values.{turn_in, Valid, IsReady};

use crate::prepare::PreparedPlan;
use crate::query::Query;
use crate::state::{Search, Stepped};
use route::relax::Scratch;

// Makes steps until one ends the search. What a step hands back stays in one struct: to move the Search out of it would copy it, and so does a test by
// `is_none`, which borrows the struct (13 percent more instructions for each step). All steps share the scratch arrays.
pub fn run(prepared: PreparedPlan, query: Query) -> Stepped
    requires { (b : List ℕ)
        × IsReady b prepared query }
    ensures { (b : List ℕ)
        → IsReady b prepared.entry query
        → (turn_in b result ≡ run (problem_in b query) query.budget)
        × Valid b result.search }
{
    let mut scratch = Scratch::new();
    let mut stepped = Stepped {
        search: Search::new(),
        ending: None,
    };
    loop {
        match stepped.ending {
            None => stepped = stepped.search.step(prepared, query, &mut scratch),
            Some(_) => return stepped,
        }
    }
}
