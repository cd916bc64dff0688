// The lines of the input:
//
//   # ..            a remark, as is an empty line
//   = P 84 ..       a plan: where it starts from (P, N or R, see test_cases::plans), its size in bytes, and the records in which it differs
//    4: ..          more records of the plan above; the line begins with a space
//   name 1 3 * 8    a case: a name without spaces, then s and t, asked with every pick and order, each with the budgets 1 to 8 and then
//                   with 1,000,000
//   name 1 3 0 1 5 ~ 3071
//                   a case with one pick, order and budget, and if said so with an out buffer of another length than 3,072
//   name .. + 3 1   a case with a lock: its mask and its values
//   name !          a case that lists the plan's routes
//
// A record is an index and six fields.
use crate::answers;
use output::Streams;
use search::query::Query;
use test_cases::cases::Cases;
use test_cases::lines::Line;
use test_cases::plans::Plan;
use test_cases::print::print_words;
use test_cases::trips::next_trip;

// The case of a line, behind its name.
fn case(rt: &impl Streams, p: &[u8], mut line: Line) {
    if line.byte(1) == b'!' {
        return answers::print_listing(rt, p);
    }
    let trip = next_trip(&mut line);
    if line.byte(1) == b'*' {
        let last = line.behind(b'*').number_or_zero();
        return answers::print_all(rt, p, trip, last);
    }
    let query = Query {
        trip,
        pick: line.number_or_zero(),
        order: line.number_or_zero(),
        budget: line.number_or_zero(),
    };
    answers::print_one(rt, p, query, line.behind(b'~').next_number())
}

// Runs the case of a line. Nothing is answered where the plan has more bytes than there is room for.
fn run_case(rt: &impl Streams, plan: &Plan, mut line: Line) {
    print_words(rt, line.next_name());
    if let Some(p) = plan.bytes() {
        case(rt, p, line);
    }
}

// Runs the cases, one after the other.
pub fn run(rt: &impl Streams, text: &[u8]) {
    for (plan, line) in Cases::of(text) {
        run_case(rt, &plan, line);
    }
}
