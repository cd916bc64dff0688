// Checks a route sheet against a depot plan: `check_sheet PLAN S T SHEET [MASK VALUES]` prints `accepted` where the sheet's belts are a permitted route
// from S to T under its setting, which agrees with the lock, and its cost is theirs, or `refused n: ..` with the number of the first broken line of
// the check's list, and the table's words for it. PLAN may be - for standard input. Where the arguments or a file are not as they should be, standard
// error says what is wrong, and nothing else is done.
//
//   usage   how the program is used
#![tactic(auto)]

mod usage;

use command::buffer::{Buffer, PlanBytes, Word};
use command::failure::Failure;
use command::{arguments, files, program, refusals};
use output::Streams;
use route::check;
use route::path::{Lock, Trip};
use std::env::Env;
use std::fs::Files;
use std::io::Input;
use usage::USAGE;

// The trip that the arguments say: from where to where the sheet is to lead, and under which lock.
fn asked<R: Env + Streams>(rt: &R) -> Result<Trip, Failure> {
    let s = arguments::number(rt, 2, b"S")?;
    let t = arguments::number(rt, 3, b"T")?;
    let mask = arguments::number_or(rt, 5, b"MASK", 0)?;
    let values = arguments::number_with(rt, 6, b"VALUES", 5)?;
    let lock = Lock { mask, values };
    Ok(Trip { s, t, lock })
}

// Checks a sheet against a plan, both by name, and prints what the check says.
fn check_files<R: Files + Input + Streams>(
    rt: &R,
    plan: &[u8],
    trip: Trip,
    sheet: &[u8],
) -> Result<(), Failure> {
    let mut p = PlanBytes::new();
    files::read(rt, plan, &mut p)?;
    // Longer than any sheet, so that a byte too many is seen.
    let mut h = Buffer::<4096>::new();
    files::read(rt, sheet, &mut h)?;
    match check::check(p.as_bytes(), trip, h.as_bytes()) {
        Ok(()) => output::print(rt, b"accepted\n"),
        Err(r) => refusals::print_refused(rt, r),
    }
    Ok(())
}

// Does what the arguments ask.
fn run<R: Env + Files + Input + Streams>(rt: &R) -> Result<(), Failure> {
    arguments::at_most(rt, 6)?;
    let plan: Word = arguments::input(rt, 1, b"PLAN")?;
    let trip = asked(rt)?;
    let sheet: Word = arguments::file(rt, 4, b"SHEET")?;
    check_files(rt, plan.as_bytes(), trip, sheet.as_bytes())
}

fn main(rt: HostRuntime) {
    program::start(&rt, b"check_sheet", USAGE, run);
}
