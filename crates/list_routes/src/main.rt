// Lists the routes of a depot plan: `list_routes [PLAN]` reads a plan from a file, or from standard input, and prints for each two junctions
// s < t, in rising s, then t,
//
//   s t cost setting opened belts..   the cheapest permitted route,
//   s t none opened                   that no route is permitted, or
//   s t spent opened                  that 1,000,000 subproblems were opened and some are left,
//
// or `refused n` with the number of the first line of the refusal table that the plan breaks, and the table's words for it on standard error.
// Where the arguments or the file are not as they should be, standard error says what is wrong, and nothing else is done.
//
//   usage   how the program is used
#![tactic(auto)]

mod usage;

use command::buffer::PlanBytes;
use command::failure::Failure;
use command::{arguments, files, program, refusals};
use output::Streams;
use std::env::Env;
use std::fs::Files;
use std::io::Input;
use usage::USAGE;

// Does what the arguments ask.
fn run<R: Env + Files + Input + Streams>(rt: &R) -> Result<(), Failure> {
    arguments::at_most(rt, 1)?;
    let name = arguments::input_or_standard(rt, 1, b"PLAN")?;
    let mut p = PlanBytes::new();
    files::read(rt, name.as_bytes(), &mut p)?;
    if let Err(r) = listing::print_listing(rt, p.as_bytes()) {
        refusals::tell_cause(rt, r);
    }
    Ok(())
}

fn main(rt: HostRuntime) {
    program::start(&rt, b"list_routes", USAGE, run);
}
