// The lines of the input:
//
//   # ..         a remark, as is an empty line
//   = P 84 ..    a plan: where it starts from (P, N or R, see test_cases::plans), its size in bytes, and the records in which it differs
//    4: ..       more records of the plan above; the line begins with a space
//   name 1 3 + 4 6 - 5
//                a case: a name without spaces, then s and t, the required belts behind a plus and the forbidden belts behind a minus
//
// A record is an index and six fields.
use crate::answers;
use output::Streams;
use route::path;
use route::path::Trip;
use test_cases::cases::Cases;
use test_cases::lines::Line;
use test_cases::plans::Plan;
use test_cases::print::print_words;

// Runs the case of a line.
fn case(rt: &impl Streams, plan: &Plan, mut line: Line) {
    print_words(rt, line.next_name());
    let trip = Trip {
        s: line.number_or_zero(),
        t: line.number_or_zero(),
        lock: path::no_lock(),
    };
    answers::answer(rt, plan, trip, line)
}

// Runs the cases, one after the other.
pub fn run(rt: &impl Streams, text: &[u8]) {
    for (plan, line) in Cases::of(text) {
        case(rt, &plan, line);
    }
}
