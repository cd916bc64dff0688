// Runs the check of route sheets on the cases of standard input, which are built field by field, and prints for each its name and the
// number answered: 0 where the sheet is accepted, else the line of the paper's refusal table. Of some routes it prints the lowest setting
// and the sheet that is written. The cases are in the file `stdin`, and what `stdout` says of them is taken from the paper.
//
//   script    the lines of the input: remarks, plans and cases
//   sheets    the sheets that the cases start from
//   answers   what is printed of a case
#![tactic(auto)]

mod answers;
mod script;
mod sheets;

use test_cases::input;

fn main(rt: HostRuntime) {
    // The room for the text is the program's own, since there is no heap.
    let mut buf = [0u8; 65536];
    let n = input::read_full(&rt, &mut buf);
    script::run(&rt, &buf[..n])
}
