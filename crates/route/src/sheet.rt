// Route sheets: records in the form of a plan's. Record 0 holds the cost and the setting, each further one a belt of the route.
ghost use Rattle.std.specs.Prelude.{◌≡◌, true, ◌++◌, ◌+◌, ◌*◌, ◌≤◌, ◌<◌, length, drop};
ghost use Rattle.plan.specs.Bounds.{max_steps, record_bytes, field_limit};
ghost use Rattle.plan.specs.Records.{placed};
ghost use Rattle.route.specs.Routes.{cost_limit};
ghost use Rattle.route.specs.Sheets.{next_of, head_of, steps_from, steps, head_fits, step_fits, in_form, belts_on, cost_on};
ghost use Rattle.route.specs.Values.{ids_of, packed, sheet_in, bytes_of};

use crate::path::Route;
use plan::bounds::{FIELD_LIMIT, MAX_SHEET_BYTES, MAX_STEPS, RECORD_BYTES};
use plan::read::BeltId;
use plan::record;

// The kinds of records, field 0. They are numbers in the bytes that no value holds, so an enum would be no plainer.
pub const SHEET: u16 = 8;

pub const STEP: u16 = 5;

// What 1 in the middle and in the high field of a cost counts.
const MIDDLE: u64 = FIELD_LIMIT as u64;

const HIGH: u64 = MIDDLE * MIDDLE;

// What a sheet says.
#[derive(Clone, Copy)]
pub struct Sheet {
    pub route: Route,
    pub cost: u64,
    pub setting: u16,
}

// What field 1 of record i holds, in a sheet with so many steps: the index of the next record, and 0 in the last.
fn next_of(count: usize, i: usize) -> u16
    requires { count ≤ max_steps }
    ensures { result ≡ next_of count i }
{
    if i < count { (i + 1) as u16 } else { 0 }
}

// Whether record 0 is in the form of a sheet.
fn head_fits(h: &[u8], count: usize) -> bool
    requires { (count ≡ steps h.now)
        × (count ≤ max_steps)
        × (record_bytes ≤ length h.now) }
    ensures { result ≡ head_fits h.now }
{
    record::field(h, 0, 0) == SHEET && record::field(h, 0, 1) == next_of(count, 0)
}

// Whether record i is in the form of a step.
fn step_fits(h: &[u8], count: usize, i: usize) -> bool
    requires { (count ≡ steps h.now)
        × (count ≤ max_steps)
        × (record_bytes * i + record_bytes ≤ length h.now) }
    ensures { result ≡ step_fits h.now i }
{
    record::field(h, i, 0) == STEP
        && record::field(h, i, 1) == next_of(count, i)
        && record::field(h, i, 3) == 0
        && record::field(h, i, 4) == 0
        && record::field(h, i, 5) == 0
}

// Whether the bytes are in the form of a sheet, whatever belts, cost and setting they hold.
pub fn in_form(h: &[u8]) -> bool
    ensures { result ≡ in_form h.now }
{
    let n = h.len();
    if !(RECORD_BYTES..=MAX_SHEET_BYTES).contains(&n) || n % RECORD_BYTES != 0 {
        return false;
    }
    let records = n / RECORD_BYTES;
    let count = records - 1;
    head_fits(h, count) && (1..records).all(|i| step_fits(h, count, i))
}

// The belts of the steps.
fn read_route(h: &[u8]) -> Route
    requires { in_form h.now ≡ true }
    ensures { result ≡ packed (belts_on h.now) }
{
    let count = h.len() / RECORD_BYTES - 1;
    let mut belts = [BeltId(0); MAX_STEPS];
    for k in 0..count {
        belts[k] = BeltId(record::field(h, k + 1, 2));
    }
    Route { count, belts }
}

// The cost, in fields 2 to 4, high first.
fn read_cost(h: &[u8]) -> u64
    requires { record_bytes ≤ length h.now }
    ensures { result ≡ cost_on h.now }
{
    let high = u64::from(record::field(h, 0, 2));
    let middle = u64::from(record::field(h, 0, 3));
    let low = u64::from(record::field(h, 0, 4));
    high * HIGH + middle * MIDDLE + low
}

// What a sheet in the form says.
pub fn read(h: &[u8]) -> Sheet
    requires { in_form h.now ≡ true }
    ensures { result ≡ sheet_in h.now }
{
    Sheet {
        route: read_route(h),
        cost: read_cost(h),
        setting: record::field(h, 0, 5),
    }
}

// Record 0 of a sheet with so many steps.
fn put_head(out: &mut [u8], count: usize, cost: u64, setting: u16)
    requires { (count ≤ max_steps)
        × (cost < cost_limit)
        × (record_bytes ≤ length out.old) }
    ensures { out.new ≡ placed out.old 0 (head_of count cost setting) }
{
    let high = (cost / HIGH) as u16;
    let middle = (cost / MIDDLE % MIDDLE) as u16;
    let low = (cost % MIDDLE) as u16;
    record::put_record(
        out,
        0,
        [SHEET, next_of(count, 0), high, middle, low, setting],
    );
}

// A step for each belt of the route, from record 1 on.
fn put_steps(out: &mut [u8], route: Route)
    requires { record_bytes * route.count + record_bytes ≤ length out.old }
    ensures { out.new ≡ placed out.old record_bytes (steps_from route.count 1 (ids_of route)) }
{
    for (k, belt) in route.belts().iter().enumerate() {
        let next = next_of(route.count, k + 1);
        record::put_record(out, k + 1, [STEP, next, belt.0, 0, 0, 0]);
    }
}

// Writes the sheet to the start of the buffer, and answers its length. Bytes behind it do not change.
pub fn write(out: &mut [u8], sheet: Sheet) -> usize
    requires { (sheet.cost < cost_limit)
        × (record_bytes * sheet.route.count + record_bytes ≤ length out.old) }
    ensures { (result ≡ length (bytes_of sheet))
        × (out.new ≡ bytes_of sheet ++ drop result out.old) }
{
    let route = sheet.route;
    put_head(out, route.count, sheet.cost, sheet.setting);
    put_steps(out, route);
    RECORD_BYTES * route.count + RECORD_BYTES
}
