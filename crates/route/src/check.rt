// The check of a sheet against a plan, for any bytes and any numbers: lines 1 to 8, 15 and 11 to 14 of the refusal table,
// in this order.
ghost use Rattle.std.specs.Prelude.{◌≡◌, false, ◌^◌, ◌≤◌, ltb};
ghost use Rattle.plan.specs.Plan.{plan_of};
ghost use Rattle.plan.specs.Refusals.{number_of};
ghost use Rattle.route.specs.Routes.{wrong_ends};
ghost use Rattle.route.specs.Permission.{wrong_lock};
ghost use Rattle.route.specs.Refusals.{sheet_refusal};
ghost use Rattle.route.specs.Values.{case_of};
ghost use Rattle.route.specs.Inner.{content_refusal};

use crate::path::Trip;
use crate::sheet::Sheet;
use crate::{modes, path, rules, sheet};
use plan::accepted::AcceptedPlan;
use plan::refusal::Refusal;

// Whether a setting sets no mode that the plan does not have.
fn is_setting(plan: AcceptedPlan, setting: u16) -> bool
    ensures { result ≡ ltb setting (2 ^ (plan_of plan.entry.bytes.now).modes) }
{
    usize::from(setting) < 1usize << plan.modes()
}

// Lines 11 to 14, of what a sheet in the form holds.
fn check_content(plan: AcceptedPlan, trip: Trip, sheet: Sheet) -> Result<(), Refusal>
    requires { (wrong_ends (plan_of plan.bytes.now) trip.s trip.t ≡ false)
        × (wrong_lock (plan_of plan.bytes.now) trip.lock ≡ false) }
    ensures { number_of result ≡ content_refusal (plan_of plan.entry.bytes.now) trip sheet }
{
    let route = sheet.route;
    if !path::are_belts(plan, route) || !is_setting(plan, sheet.setting) {
        return Err(Refusal::WrongSheet);
    }
    if !path::connects(plan, route, trip.s as usize, trip.t as usize) {
        return Err(Refusal::NotARoute);
    }
    if path::cost(plan, route) != sheet.cost {
        return Err(Refusal::WrongCost);
    }
    if !modes::agrees(trip.lock, sheet.setting) || !rules::met_by(plan, route, sheet.setting) {
        return Err(Refusal::UnmetRule);
    }
    Ok(())
}

// Checks a sheet against a plan: it is accepted, or refused by the first broken one of lines 1 to 8, 15 and 11 to 14.
pub fn check(p: &[u8], trip: Trip, h: &[u8]) -> Result<(), Refusal>
    ensures { number_of result ≡ sheet_refusal (case_of p.now trip h.now) }
{
    let plan = plan::check::check(p)?;
    if path::wrong_ends(plan, trip) {
        return Err(Refusal::WrongEnds);
    }
    if path::wrong_lock(plan, trip.lock) {
        return Err(Refusal::WrongLock);
    }
    if !sheet::in_form(h) {
        return Err(Refusal::WrongSheet);
    }
    check_content(plan, trip, sheet::read(h))
}
