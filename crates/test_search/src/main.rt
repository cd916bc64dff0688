// Answers the queries of standard input, whose plans are built field by field, and prints for each its name and the planner's answer. The
// cases are in the file `stdin`, and what `stdout` says of them was worked out without this program.
//
//   script    the lines of the input: remarks, plans and cases
//   answers   what is printed of a case
#![tactic(auto)]

mod answers;
mod script;

use test_cases::input;

fn main(rt: HostRuntime) {
    // The room for the text is the program's own, since there is no heap.
    let mut buf = [0u8; 65536];
    let n = input::read_full(&rt, &mut buf);
    script::run(&rt, &buf[..n])
}
