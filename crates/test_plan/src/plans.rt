// The plans that the cases start from, written field by field, the kinds of records as numbers (see test_cases::plans).
use plan::bounds::MAX_RECORDS;
use test_cases::plans::put_p;
use test_cases::records::{Bytes, put};

// Where a case starts from.
#[derive(Clone, Copy, Debug, PartialEq, Eq)]
pub enum Base {
    // Plan P of the paper.
    P,
    // P with its rule ahead of its belts.
    Shuffled,
    // So many junctions; record 0 is left to the case.
    Junctions(u16),
    // Two junctions and a chain of belts from record 3 to this one; record 0 is left to the case.
    Belts(u16),
    // 50 belts, records 3 to 52, and rule 53, whose literals, from record 54 to this one, each name another belt.
    Named(u16),
}

fn put_shuffled(buf: &mut Bytes) {
    put(buf, 0, [7, 3, 1, 4, 10, 0]);
    put(buf, 1, [1, 7, 0, 0, 0, 0]);
    put(buf, 2, [1, 9, 0, 0, 0, 0]);
    put(buf, 3, [1, 0, 0, 0, 0, 0]);
    put(buf, 4, [3, 0, 5, 0, 0, 0]);
    put(buf, 5, [4, 6, 0, 0, 7, 0]);
    put(buf, 6, [4, 0, 0, 0, 9, 0]);
    put(buf, 7, [2, 8, 2, 3, 0, 0]);
    put(buf, 8, [2, 0, 3, 9, 0, 0]);
    put(buf, 9, [2, 0, 3, 4, 0, 0]);
}

fn put_junctions(buf: &mut Bytes, j: u16) {
    for r in 1..=j {
        put(buf, usize::from(r), [1, 0, 0, 0, 0, 0]);
    }
}

fn put_belts(buf: &mut Bytes, last: u16) {
    put(buf, 1, [1, 3, 0, 0, 0, 0]);
    put(buf, 2, [1, 0, 0, 0, 0, 0]);
    for e in 3..last {
        put(buf, usize::from(e), [2, e + 1, 2, 1, 0, 0]);
    }
    put(buf, usize::from(last), [2, 0, 2, 1, 0, 0]);
}

// Literal 54 names belt 3, and so on.
fn put_literals(buf: &mut Bytes, last: u16) {
    for l in 54..last {
        put(buf, usize::from(l), [4, l + 1, 0, 0, l - 51, 0]);
    }
    if 53 < last {
        put(buf, usize::from(last), [4, 0, 0, 0, last - 51, 0]);
    }
}

// The plan `Named` of test_cases::plans has other belts, literals and modes. One function with all of these as numbers would be harder to read.
fn put_named(buf: &mut Bytes, last: u16) {
    put_belts(buf, 52);
    put(buf, 53, [3, 0, 54, 0, 0, 0]);
    put_literals(buf, last);
    if usize::from(last) < MAX_RECORDS {
        put(buf, 0, [7, 2, 1, 53, last + 1, 0]);
    }
}

// Writes the plan that a case starts from.
pub fn put_base(buf: &mut Bytes, base: Base) {
    match base {
        Base::P => put_p(buf),
        Base::Shuffled => put_shuffled(buf),
        Base::Junctions(j) => put_junctions(buf, j),
        Base::Belts(last) => put_belts(buf, last),
        Base::Named(last) => put_named(buf, last),
    }
}
