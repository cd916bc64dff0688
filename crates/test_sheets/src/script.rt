// The lines of the input:
//
//   # ..         a remark, as is an empty line
//   = P 84 ..    a plan: where it starts from (P, N or R, see test_cases::plans), its size in bytes, and the records in which it differs
//   ? P 84 ..    a plan whose cases ask for lowest settings
//   name 1 3 9 0 5 6 | 36 ..
//                a case: a name without spaces, then s, t, the sheet's cost, its setting and its belts, all in a row; and, where the
//                sheet is to differ from the one of these, a bar, its size in bytes and the records in which it differs
//   name .. + 3 1
//                a case with a lock: its mask and its values
//
// A record is an index and six fields.
use crate::answers::Asked;
use crate::{answers, sheets};
use plan::bounds::{MAX_SHEET_BYTES, MAX_STEPS, RECORD_BYTES};
use test_cases::lines::{Line, Lines};
use test_cases::plans::{Base, Plan};
use test_cases::print::print_words;
use test_cases::records::{Bytes, CASE_BYTES};
use test_cases::trips::next_trip;
use test_cases::{lines, records};

// What the lines so far say: the plan at hand, where it starts from, and what is asked of its cases.
#[derive(Clone, Copy, Debug)]
struct State {
    asked: Asked,
    base: Base,
    plan: Plan,
}

impl State {
    // What a line that says a plan changes, where its mark asks for this.
    fn read(asked: Asked, line: Line) -> State {
        State {
            asked,
            base: Base::of(line),
            plan: Plan::read(line),
        }
    }
}

// Writes a field of record 0, if the number fits.
fn put_head(sheet: &mut Bytes, field: usize, value: u64) {
    if let Ok(value) = u16::try_from(value) {
        records::put_field(sheet, 0, field, value);
    }
}

// Writes the k-th step, if the belt fits.
fn put_belt(sheet: &mut Bytes, k: u16, belt: u64) {
    if let Ok(belt) = u16::try_from(belt) {
        sheets::put_step(sheet, k, belt);
    }
}

// Writes a step for each belt of the line, as many as a sheet may have, and answers the sheet's size.
fn put_belts(sheet: &mut Bytes, mut line: Line) -> usize {
    for k in 1..=MAX_STEPS as u16 {
        let Some(belt) = line.next_number() else {
            return RECORD_BYTES * usize::from(k);
        };
        put_belt(sheet, k, belt);
    }
    MAX_SHEET_BYTES
}

// Runs the case of a line.
fn case(rt: &impl Print, state: &State, mut line: Line) {
    print_words(rt, line.next_name());
    let trip = next_trip(&mut line);
    let mut sheet = [0; CASE_BYTES];
    sheets::put_sheet(&mut sheet, state.base);
    put_head(&mut sheet, 4, line.number_or_zero());
    put_head(&mut sheet, 5, line.number_or_zero());
    let with_belts = put_belts(&mut sheet, line);
    let mut given = line.behind(b'|');
    let size = given.next_number().map_or(with_belts, |n| n as usize);
    lines::change_records(&mut sheet, given);
    answers::answer(rt, state.asked, &state.plan, trip, sheet.get(..size))
}

// Runs the lines, one after the other.
pub fn run(rt: &impl Print, text: &[u8]) {
    let mut state = State {
        asked: Asked::Number,
        base: Base::P,
        plan: Plan::none(),
    };
    for line in Lines::of(text) {
        match line.byte(0) {
            b'=' => state = State::read(Asked::Number, line),
            b'?' => state = State::read(Asked::Lowest, line),
            b'#' | b'\n' => {}
            _ => case(rt, &state, line),
        }
    }
}
