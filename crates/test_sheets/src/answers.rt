// What is printed of a case: the number that the check answers to a sheet, or the lowest setting of its route and the sheet written anew.
ghost use Rattle.std.specs.Prelude.{◌≡◌, false, ◌≤◌, ◌<◌};
ghost use Rattle.plan.specs.Plan.{plan_of};
ghost use Rattle.route.specs.Routes.{cost_limit};
ghost use Rattle.route.specs.Permission.{wrong_lock};
ghost use Rattle.route.specs.Values.{Known};

use plan::accepted::AcceptedPlan;
use plan::bounds::MAX_RECORDS;
use plan::{check, refusal};
use route::path::{Route, Trip};
use route::sheet::Sheet;
use test_cases::plans::Plan;
use test_cases::print::{print_number, print_words};

// What is printed.
#[derive(Clone, Copy, Debug, PartialEq, Eq)]
pub enum Asked {
    Number,
    Lowest,
}

// The number that the check answers.
fn number(p: &[u8], trip: Trip, h: &[u8]) -> u8 {
    refusal::number(route::check::check(p, trip, h))
}

// Prints the bytes, but 48 at most.
fn print_bytes(rt: &impl Print, bytes: &[u8]) {
    print_words(rt, b" bytes");
    for byte in bytes.iter().take(48) {
        print_number(rt, b" ", *byte);
    }
}

// Prints a sheet, what the check answers to it, and whether the bytes behind it are as they were, 170.
fn print_sheet(rt: &impl Print, p: &[u8], trip: Trip, sheet: &[u8], behind: &[u8]) {
    print_number(rt, b" length ", sheet.len());
    print_number(rt, b" check ", number(p, trip, sheet));
    if behind.iter().all(|byte| *byte == 170) {
        print_words(rt, b" guard kept");
    } else {
        print_words(rt, b" guard changed");
    }
    print_bytes(rt, sheet);
}

// Writes a sheet into bytes that are 170, more than it takes.
fn print_written(rt: &impl Print, p: &[u8], trip: Trip, sheet: Sheet)
    requires { sheet.cost < cost_limit }
{
    let mut out = [170; 3100];
    let n = route::sheet::write(&mut out, sheet);
    if let Some((written, behind)) = out.split_at_checked(n) {
        print_sheet(rt, p, trip, written, behind);
    }
}

// The lowest setting of a route for a trip.
fn lowest_of(plan: AcceptedPlan, trip: Trip, r: Route) -> Option<u16>
    requires { Known plan.bytes.now r
        × (wrong_lock (plan_of plan.bytes.now) trip.lock ≡ false) }
{
    let places = plan.named_places();
    let mut clauses = [0u32; MAX_RECORDS];
    route::clauses::decode(plan, &places, &mut clauses);
    let mask = route::masks::on_route(&places, r);
    route::modes::lowest_setting(plan.modes(), &clauses, trip, mask)
}

// Prints the lowest setting of the route that a sheet has, and the sheet written anew with it; or why there is none.
fn print_setting(rt: &impl Print, p: &[u8], trip: Trip, h: &[u8]) {
    let Ok(plan) = check::check(p) else {
        return print_words(rt, b" no plan");
    };
    if !route::sheet::in_form(h) {
        return print_words(rt, b" no sheet");
    }
    let sheet = route::sheet::read(h);
    if !route::path::are_belts(plan, sheet.route) {
        return print_words(rt, b" no belts");
    }
    if route::path::wrong_lock(plan, trip.lock) {
        return print_words(rt, b" no lock");
    }
    match lowest_of(plan, trip, sheet.route) {
        Some(setting) => {
            print_number(rt, b" setting ", setting);
            let cost = route::path::cost(plan, sheet.route);
            print_written(
                rt,
                p,
                trip,
                Sheet {
                    cost,
                    setting,
                    ..sheet
                },
            )
        }
        None => print_words(rt, b" no setting"),
    }
}

fn print_answer(rt: &impl Print, asked: Asked, p: &[u8], trip: Trip, h: &[u8]) {
    match asked {
        Asked::Number => print_number(rt, b" ", number(p, trip, h)),
        Asked::Lowest => print_setting(rt, p, trip, h),
    }
}

// Prints what is asked of a case, and ends the line. Nothing is answered where the plan or the sheet has more bytes than there is room for.
pub fn answer(rt: &impl Print, asked: Asked, plan: &Plan, trip: Trip, sheet: Option<&[u8]>) {
    if let (Some(p), Some(h)) = (plan.bytes(), sheet) {
        print_answer(rt, asked, p, trip, h);
    }
    print_words(rt, b"\n");
}
