// What is printed of a case: the planner's answers, as the listing has them.
use output::Streams;
use plan::bounds::MAX_SHEET_BYTES;
use route::path::Trip;
use search::entry;
use search::query::Query;
use test_cases::print::{print_number, print_words};

// The answer to a query with this out buffer.
fn print_answer(rt: &impl Streams, p: &[u8], query: Query, out: &mut [u8]) {
    let answer = entry::search(p, query, out);
    listing::print_line(rt, listing::line_of(answer, out));
}

// The same with an out buffer of `room` bytes; nothing where it would have more than 4,096.
fn print_within(rt: &impl Streams, p: &[u8], query: Query, room: usize) {
    let mut out = [0; 4096];
    if let Some(out) = out.get_mut(..room) {
        print_answer(rt, p, query, out);
    }
}

// The answer to one query, and the end of the line. The out buffer has 3,072 bytes, unless another number is said.
pub fn print_one(rt: &impl Streams, p: &[u8], query: Query, room: Option<u64>) {
    let room = room.map_or(MAX_SHEET_BYTES, |n| n as usize);
    print_within(rt, p, query, room);
    print_words(rt, b"\n");
}

// The answers with the budgets 1, 2, .. up to the last and then with 1,000,000.
fn print_budgets(rt: &impl Streams, p: &[u8], query: Query, last: u64) {
    for budget in 1..=last {
        print_within(rt, p, Query { budget, ..query }, MAX_SHEET_BYTES);
        print_words(rt, b",");
    }
    print_within(rt, p, query, MAX_SHEET_BYTES);
}

// A line for each pick and order.
pub fn print_all(rt: &impl Streams, p: &[u8], trip: Trip, last: u64) {
    print_words(rt, b"\n");
    for pick in 0..3 {
        for order in 0..2 {
            print_number(rt, b"  ", pick);
            print_number(rt, b" ", order);
            print_words(rt, b":");
            let query = Query {
                trip,
                pick,
                order,
                budget: 1_000_000,
            };
            print_budgets(rt, p, query, last);
            print_words(rt, b"\n");
        }
    }
}

// The listing of the plan, below the name.
pub fn print_listing(rt: &impl Streams, p: &[u8]) {
    print_words(rt, b"\n");
    // Of a refused plan the listing says so.
    let _ = listing::print_listing(rt, p);
}
