// Writes a depot plan anew in its archive form: `archive_plan PLAN OUT` prints
//
//   written n   that the archive form is in the file OUT; it has n bytes
//
// or `refused n` with the number of the first line of the refusal table that is broken, and the table's words for it on standard error. PLAN may
// be - for standard input. A file that stands at OUT is not replaced: it may hold the archive form already, and is left alone if it holds
// anything else. Where the arguments or a file are not as they should be, standard error says what is wrong, and nothing else is done.
//
//   usage   how the program is used
#![tactic(auto)]

mod usage;

use archive::entry;
use command::buffer::{PlanBytes, Word};
use command::failure::Failure;
use command::{arguments, files, plans, program, refusals};
use output::{Printer, Streams};
use plan::bounds::MAX_PLAN_BYTES;
use std::env::Env;
use std::fs::Files;
use std::io::Input;
use std::random::RandomSource;
use usage::USAGE;

// Prints that so many bytes are written.
fn print_written<R: Streams>(rt: &R, size: usize) {
    let mut out = Printer::new(rt);
    out.put_number(b"written ", size as u64);
    out.put(b"\n");
    out.finish();
}

// Writes the archive form of a plan to the file of this name, then prints the line. Where it can't be written nothing is printed.
fn answer<R: Files + Input + RandomSource + Alloc + Streams>(
    rt: &R,
    p: &[u8],
    name: &[u8],
) -> Result<(), Failure> {
    // As long as the largest plan, so that line 16 is not broken.
    let mut out = [0u8; MAX_PLAN_BYTES];
    match entry::archive(p, &mut out) {
        Ok(size) => {
            plans::keep(rt, name, &out[..size])?;
            print_written(rt, size);
        }
        Err(r) => refusals::print_number(rt, r),
    }
    Ok(())
}

// Does what the arguments ask.
fn run<R: Env + Files + Input + RandomSource + Alloc + Streams>(rt: &R) -> Result<(), Failure> {
    arguments::at_most(rt, 2)?;
    let plan: Word = arguments::input(rt, 1, b"PLAN")?;
    let name: Word = arguments::file(rt, 2, b"OUT")?;
    let mut p = PlanBytes::new();
    files::read(rt, plan.as_bytes(), &mut p)?;
    answer(rt, p.as_bytes(), name.as_bytes())
}

fn main(rt: HostRuntime) {
    program::start(&rt, b"archive_plan", USAGE, run);
}
