// Shows a depot plan in words: `show_plan [PLAN]` reads a plan from a file, or from standard input, and prints the counts, a line for each belt, a
// line for each rule and the named belts; or `refused n` with the number of the first line of the refusal table that the plan breaks, and
// the table's words for it on standard error. Where the arguments or the file are not as they should be, standard error says what is wrong, and
// nothing else is done.
//
//   usage   how the program is used
#![tactic(auto)]

mod usage;

ghost use Rattle.std.specs.Prelude.{◌≤◌};
ghost use Rattle.plan.specs.Plan.{plan_of};
ghost use Rattle.plan.specs.Reading.{IsBelt, IsRule};

use command::buffer::PlanBytes;
use command::failure::Failure;
use command::{arguments, files, program, refusals};
use output::{Printer, Streams};
use plan::accepted::AcceptedPlan;
use plan::check;
use plan::named::PlacedPlan;
use plan::read::{BeltId, Literal, RuleId};
use std::env::Env;
use std::fs::Files;
use std::io::Input;
use usage::USAGE;

// The line of a belt that leaves junction j; named belts have a place.
fn put_belt<R: Streams>(out: &mut Printer<R>, placed: PlacedPlan, j: usize, belt: BeltId)
    requires { IsBelt placed.plan.bytes.now belt.0 }
{
    out.put_number(b"belt ", u64::from(belt.0));
    out.put_number(b" from ", j as u64);
    out.put_number(b" to ", placed.plan.leads_to(belt) as u64);
    out.put_number(b" cost ", placed.plan.cost(belt));
    if let Some(k) = placed.place_of(belt) {
        out.put_number(b" place ", k as u64);
    }
    out.put(b"\n");
}

// The belts that leave junction j, along its chain.
fn put_leaving<R: Streams>(out: &mut Printer<R>, placed: PlacedPlan, j: usize)
    requires low { 1 ≤ j }
    requires high { j ≤ (plan_of placed.plan.bytes.now).junctions }
{
    for belt in placed.plan.belts_from(j) {
        put_belt(out, placed, j, belt);
    }
}

fn put_belts<R: Streams>(out: &mut Printer<R>, plan: AcceptedPlan) {
    let places = plan.named_places();
    let placed = PlacedPlan {
        plan,
        places: &places,
    };
    for j in 1..=plan.junctions() {
        put_leaving(out, placed, j);
    }
}

// What is wanted of a belt or a mode, and its number.
fn put_wanted<R: Streams>(out: &mut Printer<R>, wanted: bool, kind: &[u8], n: u16) {
    if !wanted {
        out.put(b" not");
    }
    out.put_number(kind, u64::from(n));
}

// What a literal says.
fn put_literal<R: Streams>(out: &mut Printer<R>, literal: Literal) {
    match literal {
        Literal::OfBelt(belt, wanted) => put_wanted(out, wanted, b" belt ", belt.0),
        Literal::OfMode(mode, wanted) => put_wanted(out, wanted, b" mode ", mode.0),
    }
}

// The literals of a rule; before every one behind the first stands `or`.
fn put_literals<R: Streams>(out: &mut Printer<R>, plan: AcceptedPlan, rule: RuleId)
    requires { IsRule plan.bytes.now rule.0 }
{
    let mut literals = plan.literals(rule);
    let Some(first) = literals.next() else {
        return;
    };
    put_literal(out, plan.literal(first));
    for literal in literals {
        out.put(b" or");
        put_literal(out, plan.literal(literal));
    }
}

fn put_rules<R: Streams>(out: &mut Printer<R>, plan: AcceptedPlan) {
    for rule in plan.rules() {
        out.put(b"rule");
        put_literals(out, plan, rule);
        out.put(b"\n");
    }
}

fn put_named<R: Streams>(out: &mut Printer<R>, plan: AcceptedPlan) {
    out.put(b"named");
    for belt in plan.named_belts().belts() {
        out.put_number(b" ", u64::from(belt.0));
    }
    out.put(b"\n");
}

// How many junctions and modes there are.
fn put_counts<R: Streams>(out: &mut Printer<R>, plan: AcceptedPlan) {
    out.put_number(b"junctions ", plan.junctions() as u64);
    out.put_number(b" modes ", plan.modes() as u64);
    out.put(b"\n");
}

// An accepted plan, whole.
fn print_plan<R: Streams>(rt: &R, plan: AcceptedPlan) {
    let mut out = Printer::new(rt);
    put_counts(&mut out, plan);
    put_belts(&mut out, plan);
    put_rules(&mut out, plan);
    put_named(&mut out, plan);
    out.finish();
}

// Any bytes: refused with a number, or shown.
fn show<R: Streams>(rt: &R, p: &[u8]) {
    match check::check(p) {
        Ok(plan) => print_plan(rt, plan),
        Err(r) => refusals::print_number(rt, r),
    }
}

// Does what the arguments ask.
fn run<R: Env + Files + Input + Streams>(rt: &R) -> Result<(), Failure> {
    arguments::at_most(rt, 1)?;
    let name = arguments::input_or_standard(rt, 1, b"PLAN")?;
    let mut p = PlanBytes::new();
    files::read(rt, name.as_bytes(), &mut p)?;
    show(rt, p.as_bytes());
    Ok(())
}

fn main(rt: HostRuntime) {
    program::start(&rt, b"show_plan", USAGE, run);
}
