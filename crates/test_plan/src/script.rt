// Cases as lines of text: a name, a space, the plan's size in bytes, and behind a bar the records that differ from the base, each an
// index and six fields.
use crate::plans;
use crate::plans::Base;
use test_cases::lines;
use test_cases::lines::{Line, Lines};
use test_cases::print::{print_number, print_words};
use test_cases::records::CASE_BYTES;

// Prints the number that the check answers.
fn print_check(rt: &impl Print, p: &[u8]) {
    let number = plan::refusal::number(plan::check::check(p));
    print_number(rt, b" ", number);
}

// Runs the case of a line.
fn case(rt: &impl Print, base: Base, mut line: Line) {
    print_words(rt, line.next_name());
    let size = line.number_or_zero() as usize;
    let mut bytes = [0; CASE_BYTES];
    plans::put_base(&mut bytes, base);
    lines::change_records(&mut bytes, line.behind(b'|'));
    if let Some(p) = bytes.get(..size) {
        print_check(rt, p);
    }
    print_words(rt, b"\n");
}

// Runs the case of each line, on a plan that starts from the base.
pub fn cases(rt: &impl Print, base: Base, text: &[u8]) {
    for line in Lines::of(text) {
        case(rt, base, line);
    }
}
