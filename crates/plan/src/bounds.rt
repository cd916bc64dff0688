// The limits of the format (paper 01), each written once. The definitions have the same numbers under the same names (specs/Bounds.antt).

// What a field holds is below this: two bytes.
pub const FIELD_LIMIT: usize = 65536;

// The bytes of a record.
pub const RECORD_BYTES: usize = 12;

// The most records of a plan.
pub const MAX_RECORDS: usize = 2048;

// The bytes of the smallest plan, record 0 and one junction, and of the largest.
pub const MIN_PLAN_BYTES: usize = 2 * RECORD_BYTES;

pub const MAX_PLAN_BYTES: usize = RECORD_BYTES * MAX_RECORDS;

// The most junctions. An array with a place for each junction has one more, since junctions are numbered from 1.
pub const MAX_JUNCTIONS: usize = 256;

pub const JUNCTION_PLACES: usize = MAX_JUNCTIONS + 1;

// The most modes.
pub const MAX_MODES: usize = 10;

// The most named belts.
pub const MAX_NAMED: usize = 48;

// The most belts of a route, which passes each junction once at most, and the bytes of the largest sheet.
pub const MAX_STEPS: usize = MAX_JUNCTIONS - 1;

pub const MAX_SHEET_BYTES: usize = RECORD_BYTES * (MAX_STEPS + 1);
