// The listing: the planner's answers as lines of text, gathered and written in large pieces. Which values are printed is proved (line_of); how
// they are written out is held by comparing the output of the programs that use this.
//
//   s t cost setting opened belts..   a route
//   s t none opened                   no route is permitted
//   s t spent opened                  the budget is spent
//   refused n                         the number of the first broken line of the refusal table
#![tactic(auto)]

ghost use Rattle.std.specs.Prelude.{◌≡◌, false, List, ℕ};
ghost use Rattle.plan.specs.Plan.{plan_of};
ghost use Rattle.plan.specs.Reading.{Bytes};
ghost use Rattle.plan.specs.Refusals.{refusal, number_of};
ghost use Rattle.route.specs.Routes.{wrong_ends};
ghost use Rattle.route.specs.Permission.{wrong_lock};
ghost use Rattle.search.specs.Values.{Prepared};
ghost use Rattle.listing.specs.Lines.{blank, read_sheet, sheet_at, line_of};

use output::{Printer, Streams};
use plan::accepted::AcceptedPlan;
use plan::bounds::{MAX_NAMED, MAX_RECORDS, MAX_SHEET_BYTES};
use plan::refusal::Refusal;
use plan::words::NUMBERS;
use route::path::{Route, Trip};
use route::sheet::Sheet;
use route::{path, sheet};
use search::entry::{Answer, Reply};
use search::prepare::PreparedPlan;
use search::query::Query;
use search::{entry, prepare};

// Gathers the belts of a route, each behind a space.
fn put_belts<R: Streams>(out: &mut Printer<R>, route: Route) {
    for belt in route.belts() {
        out.put_number(b" ", u64::from(belt.0));
    }
}

// Prints the belts of a route, each behind a space.
pub fn print_belts<R: Streams>(rt: &R, route: Route) {
    let mut out = Printer::new(rt);
    put_belts(&mut out, route);
    out.finish();
}

// What is printed of an answer: its number, how many were opened, and what its sheet says; nothing where it has none.
#[derive(Clone, Copy)]
pub struct Line {
    pub number: u8,
    pub opened: u64,
    pub sheet: Sheet,
}

// A sheet that says nothing.
fn blank() -> Sheet
    ensures { result ≡ blank }
{
    Sheet {
        route: Route::empty(),
        cost: 0,
        setting: 0,
    }
}

// What the bytes say, if they are in the form of a sheet.
fn read_sheet(h: &[u8]) -> Sheet
    ensures { result ≡ read_sheet h.now }
{
    if sheet::in_form(h) {
        return sheet::read(h);
    }
    blank()
}

// What the first `size` bytes say, if there are so many.
fn sheet_at(out: &[u8], size: usize) -> Sheet
    ensures { result ≡ sheet_at out.now size }
{
    if out.len() < size {
        return blank();
    }
    read_sheet(&out[..size])
}

// The values of an answer. A route's sheet stands at the start of `out`.
pub fn line_of(answer: Result<Answer, Refusal>, out: &[u8]) -> Line
    ensures { result ≡ line_of answer out.now }
{
    let reply = Reply::from(answer);
    Line {
        number: reply.number,
        opened: reply.opened,
        sheet: sheet_at(out, reply.size),
    }
}

// Gathers what a route's sheet says.
fn put_route<R: Streams>(out: &mut Printer<R>, sheet: Sheet, opened: u64) {
    out.put_number(b" ", sheet.cost);
    out.put_number(b" ", u64::from(sheet.setting));
    out.put_number(b" ", opened);
    put_belts(out, sheet.route);
}

// Gathers a line behind s and t. Its number stays a number, since the claim of specs/Claims.antt compares lines by it.
fn put_line<R: Streams>(out: &mut Printer<R>, line: Line) {
    match line.number {
        0 => put_route(out, line.sheet, line.opened),
        100 => out.put_number(b" none ", line.opened),
        101 => out.put_number(b" spent ", line.opened),
        number => out.put_number(b" refused ", u64::from(number)),
    }
}

// Prints a line behind s and t.
pub fn print_line<R: Streams>(rt: &R, line: Line) {
    let mut out = Printer::new(rt);
    put_line(&mut out, line);
    out.finish();
}

// Gathers the line of a plan or a query that is refused.
fn put_refused<R: Streams>(out: &mut Printer<R>, r: Refusal) {
    out.put_number(b"refused ", u64::from(u8::from(r)));
    out.put(b"\n");
}

// Gathers the line of a query by its answer: s and t stand first; a refusal stands by itself.
fn put_query<R: Streams>(
    out: &mut Printer<R>,
    trip: Trip,
    answer: Result<Answer, Refusal>,
    sheet: &[u8],
) {
    if let Err(r) = answer {
        return put_refused(out, r);
    }
    out.put_number(b"", trip.s);
    out.put_number(b" ", trip.t);
    put_line(out, line_of(answer, sheet));
    out.put(b"\n");
}

// Prints the line of a query by its answer.
pub fn print_query<R: Streams>(rt: &R, trip: Trip, answer: Result<Answer, Refusal>, out: &[u8]) {
    let mut printer = Printer::new(rt);
    put_query(&mut printer, trip, answer, out);
    printer.finish();
}

// The line from s to t of a prepared plan (search::prepare): pick 0, order 0, budget 1,000,000.
fn put_pair<R: Streams>(out: &mut Printer<R>, plan: PreparedPlan, trip: Trip)
    requires { (b : List ℕ)
        × Prepared b plan.words.now plan.numbers.now plan.places.now plan.clauses.now
        × (wrong_ends (plan_of b) trip.s trip.t ≡ false)
        × (wrong_lock (plan_of b) trip.lock ≡ false) }
{
    let query = Query {
        trip,
        pick: 0,
        order: 0,
        budget: 1000000,
    };
    let mut sheet = [0u8; MAX_SHEET_BYTES];
    let answer = entry::find(plan, query, &mut sheet);
    put_query(out, trip, Ok(answer), &sheet);
}

// The lines of a prepared plan with so many junctions: from each to each later one.
fn put_all<R: Streams>(out: &mut Printer<R>, plan: PreparedPlan, last: u64)
    requires { (b : List ℕ)
        × Prepared b plan.words.now plan.numbers.now plan.places.now plan.clauses.now
        × (last ≡ (plan_of b).junctions) }
{
    for s in 1..last {
        for t in s + 1..=last {
            let lock = path::no_lock();
            put_pair(out, plan, Trip { s, t, lock });
        }
    }
}

// The lines of an accepted plan, which is prepared once.
fn put_lines<R: Streams>(out: &mut Printer<R>, plan: AcceptedPlan)
    requires { Bytes plan.bytes.now }
{
    let mut words = [0u64; MAX_NAMED + MAX_RECORDS];
    let mut numbers = [0u16; NUMBERS];
    let mut places = [0u8; MAX_RECORDS];
    let mut clauses = [0u32; MAX_RECORDS];
    prepare::prepare(plan, &mut words, &mut numbers, &mut places, &mut clauses);
    let prepared = PreparedPlan {
        words: &words,
        numbers: &numbers,
        places: &places,
        clauses: &clauses,
    };
    put_all(out, prepared, plan.junctions() as u64);
}

// Prints a line for each two junctions s < t of the plan, in rising s, then t; or that the plan is refused. Answers the verdict of the
// plan check.
pub fn print_listing<R: Streams>(rt: &R, p: &[u8]) -> Result<(), Refusal>
    ensures { number_of result ≡ refusal p.now }
{
    let mut out = Printer::new(rt);
    let verdict = match plan::check::check(p) {
        Ok(plan) => {
            put_lines(&mut out, plan);
            Ok(())
        }
        Err(r) => {
            put_refused(&mut out, r);
            Err(r)
        }
    };
    out.finish();
    verdict
}
