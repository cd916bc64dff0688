// Which version of the planner a program is of, and which kit its proofs were last checked with. `tests/programs` holds the latter to the
// file `kit`.

use output::{Printer, Streams};

// Prints both, behind the name of the program.
pub fn print<R: Streams>(rt: &R, program: &[u8]) {
    let mut out = Printer::new(rt);
    out.put(program);
    out.put(
        b" of the depot route planner, version 1.0\nproved with rattle-kit-13f logic dac8208d650f15bf\n",
    );
    out.finish();
}
