// Finds the relaxed routes of the cases of standard input, whose plans are built field by field, and prints for each its name and the cost
// and belts of the route, `none` where there is none, or why none is asked for: `refused n` with the line of the paper's refusal table, or
// `not named`. The cases are in the file `stdin`, and what `stdout` says of them is taken from the paper.
//
//   script    the lines of the input: remarks, plans and cases
//   answers   what is printed of a case
#![tactic(auto)]

mod answers;
mod script;

use test_cases::input;

fn main(rt: HostRuntime) {
    // The room for the text is the program's own, since there is no heap.
    let mut buf = [0u8; 65536];
    let n = input::read_full(&rt, &mut buf);
    script::run(&rt, &buf[..n])
}
