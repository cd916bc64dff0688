// Finds a route of a depot plan: `find_route PLAN S T SHEET [PICK [ORDER [BUDGET [MASK VALUES]]]]` prints the
// listing's line of the query,
//
//   s t cost setting opened belts..   the cheapest permitted route, whose sheet is written to the file SHEET first,
//   s t none opened                   that no route is permitted, or
//   s t spent opened                  that as many subproblems were opened as the budget has, and some are left,
//
// or `refused n` with the number of the first line of the refusal table that is broken, and the table's words for it on standard error. PLAN may
// be - for standard input. SHEET may be free or hold an older sheet, which is replaced by a whole one or not at all; any other file is
// left alone. Where the arguments or a file are not as they should be, standard error says what is wrong, and nothing else is done.
//
//   usage   how the program is used
#![tactic(auto)]

mod usage;

use command::buffer::{PlanBytes, Word};
use command::failure::Failure;
use command::{arguments, files, program, refusals, sheets};
use output::Streams;
use plan::bounds::MAX_SHEET_BYTES;
use route::path::{Lock, Trip};
use search::entry;
use search::entry::Answer;
use search::query::Query;
use std::env::Env;
use std::fs::Files;
use std::io::Input;
use std::random::RandomSource;
use usage::USAGE;

// The query that the arguments ask.
fn asked<R: Env + Streams>(rt: &R) -> Result<Query, Failure> {
    let s = arguments::number(rt, 2, b"S")?;
    let t = arguments::number(rt, 3, b"T")?;
    let pick = arguments::number_or(rt, 5, b"PICK", 0)?;
    let order = arguments::number_or(rt, 6, b"ORDER", 0)?;
    let budget = arguments::number_or(rt, 7, b"BUDGET", 1000000)?;
    let mask = arguments::number_or(rt, 8, b"MASK", 0)?;
    let values = arguments::number_with(rt, 9, b"VALUES", 8)?;
    let lock = Lock { mask, values };
    Ok(Query {
        trip: Trip { s, t, lock },
        pick,
        order,
        budget,
    })
}

// Answers a query: writes the sheet of a route to the file of this name, in place of the older one that was seen there, and then prints the line. Where
// the sheet can't be written nothing is printed.
fn answer<R: Files + RandomSource + Alloc + Streams>(
    rt: &R,
    p: &[u8],
    query: Query,
    sheet: &[u8],
    older: Option<u32>,
) -> Result<(), Failure> {
    let mut out = [0u8; MAX_SHEET_BYTES];
    let answer = entry::search(p, query, &mut out);
    if let Ok(Answer::Found { size, .. }) = answer {
        sheets::write(rt, sheet, &out[..size], older)?;
        listing::print_query(rt, query.trip, answer, &out);
        return Ok(());
    }
    listing::print_query(rt, query.trip, answer, &out);
    if let Err(r) = answer {
        refusals::tell_cause(rt, r);
    }
    sheets::tell_kept(rt, sheet, older);
    Ok(())
}

// Answers a query about the plan of this name. What stands where the sheet is to go is looked at first, so that no other file is lost.
fn find<R: Files + Input + RandomSource + Alloc + Streams>(
    rt: &R,
    plan: &[u8],
    query: Query,
    sheet: &[u8],
) -> Result<(), Failure> {
    let source = files::open(rt, plan)?;
    let older = sheets::look(rt, sheet, &source)?;
    let mut p = PlanBytes::new();
    files::read_opened(rt, source, plan, &mut p)?;
    answer(rt, p.as_bytes(), query, sheet, older)
}

// Does what the arguments ask.
fn run<R: Env + Files + Input + RandomSource + Alloc + Streams>(rt: &R) -> Result<(), Failure> {
    arguments::at_most(rt, 9)?;
    let plan: Word = arguments::input(rt, 1, b"PLAN")?;
    let query = asked(rt)?;
    let sheet: Word = arguments::file(rt, 4, b"SHEET")?;
    find(rt, plan.as_bytes(), query, sheet.as_bytes())
}

fn main(rt: HostRuntime) {
    program::start(&rt, b"find_route", USAGE, run);
}
