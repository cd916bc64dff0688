// The sheets that the cases start from, written field by field, the kinds of records as numbers (see test_cases::plans).
use plan::bounds::MAX_STEPS;
use test_cases::plans::Base;
use test_cases::records::{Bytes, put, put_field};

// Writes a step at record k of a sheet, behind those that it has.
pub fn put_step(buf: &mut Bytes, k: u16, belt: u16) {
    let record = usize::from(k);
    if (1..=MAX_STEPS).contains(&record) {
        put_field(buf, record - 1, 1, k);
        put(buf, record, [5, 0, belt, 0, 0, 0]);
    }
}

// The sheet of the whole row. 255 times 4294967295 is 254 times 4294967296, and 65535 times 65536, and 65281; mode 10 counts 512.
fn put_row_sheet(buf: &mut Bytes) {
    put(buf, 0, [8, 0, 254, 65535, 65281, 512]);
    for k in 1..256 {
        put_step(buf, k, 256 + k);
    }
}

// Writes the sheet that is started from: record 0 of one without steps, or the row's.
pub fn put_sheet(buf: &mut Bytes, base: Base) {
    match base {
        Base::P | Base::Named => put(buf, 0, [8, 0, 0, 0, 0, 0]),
        Base::Row => put_row_sheet(buf),
    }
}
