// The planner's answer to a query, for any bytes and any numbers: lines 1 to 8, 15, 9 and 10 of the refusal table, in this order, and the search.
ghost use Rattle.std.specs.Prelude.{◌≡◌, true, false, List, ℕ, ◌+◌, ◌≤◌, length};
ghost use Rattle.plan.specs.Bounds.{max_sheet_bytes, max_named, max_records};
ghost use Rattle.plan.specs.Plan.{plan_of};
ghost use Rattle.plan.specs.Records.{records};
ghost use Rattle.plan.specs.Reading.{Bytes};
ghost use Rattle.route.specs.Routes.{wrong_ends};
ghost use Rattle.route.specs.Permission.{wrong_lock};
ghost use Rattle.search.specs.Answers.{unless_refused, outcome, reply_of, Told};
ghost use Rattle.search.specs.Values.{is_held, Valid, IsReady, request_of};
ghost use Rattle.search.specs.Inner.{IsListed, best_of};

use crate::prepare::PreparedPlan;
use crate::query::Query;
use crate::state::{Ending, Search};
use crate::{prepare, query, run};
use plan::accepted::AcceptedPlan;
use plan::bounds::{MAX_NAMED, MAX_RECORDS, MAX_SHEET_BYTES};
use plan::refusal::Refusal;
use plan::words::NUMBERS;
use route::path::Trip;
use route::sheet::Sheet;
use route::{masks, modes, path, sheet};

// Plans of at most so many records are decoded into arrays of this size, which take less time to clear than those of the largest plan.
const SMALL_PLAN: usize = 256;

// The length of the array of words for plans of these two sizes.
const SMALL_WORDS: usize = MAX_NAMED + SMALL_PLAN;

const WORDS: usize = MAX_NAMED + MAX_RECORDS;

// What the planner answers to a query that no line refuses. Each says how many subproblems were opened.
#[derive(Clone, Copy, Debug, PartialEq, Eq)]
pub enum Answer {
    // A route, and the length of its sheet, which stands at the start of the out buffer.
    Found { opened: u64, size: usize },
    // No route is permitted.
    Nothing { opened: u64 },
    // The budget is spent.
    Spent { opened: u64 },
    // The search is not at its end. A search to its end never answers so.
    Paused { opened: u64 },
}

// An answer in numbers: 0 for a route, 100 for none, 101 for spent, or the number of the broken line; how many subproblems were opened; and the
// length of the sheet. What an answer does not have is 0. These are the numbers of the C interface.
#[derive(Clone, Copy, Debug, PartialEq, Eq)]
pub struct Reply {
    pub number: u8,
    pub opened: u64,
    pub size: usize,
}

impl From<Result<Answer, Refusal>> for Reply {
    ghost from_gives = { λ answer reply. reply ≡ reply_of answer };

    fn from(answer: Result<Answer, Refusal>) -> Reply {
        match answer {
            Ok(Answer::Found { opened, size }) => Reply {
                number: 0,
                opened,
                size,
            },
            Ok(Answer::Nothing { opened }) => Reply {
                number: 100,
                opened,
                size: 0,
            },
            Ok(Answer::Spent { opened }) => Reply {
                number: 101,
                opened,
                size: 0,
            },
            Ok(Answer::Paused { opened }) => Reply {
                number: 102,
                opened,
                size: 0,
            },
            Err(r) => Reply {
                number: u8::from(r),
                opened: 0,
                size: 0,
            },
        }
    }
}

// Writes the sheet of the best route of a search for a trip that has found it.
fn write_best(prepared: PreparedPlan, trip: Trip, search: Search, out: &mut [u8]) -> Answer
    requires listed { (b : List ℕ)
        × IsListed b prepared
        × Valid b search
        × (wrong_lock (plan_of b) trip.lock ≡ false) }
    requires held { is_held search.bound ≡ true }
    requires room { max_sheet_bytes ≤ length out.old }
    ensures { (b : List ℕ)
        → IsListed b prepared.entry
        → Valid b search
        → wrong_lock (plan_of b) trip.lock ≡ false
        → Told (reply_of (Ok result)) out.old out.new (best_of b trip search) }
{
    let route = search.best;
    let mask = masks::on_route(prepared.places, route);
    let setting = modes::lowest_setting(prepared.modes(), prepared.clauses, trip, mask);
    let sheet = Sheet {
        route,
        cost: search.bound,
        // The best route is permitted, so a setting works.
        setting: setting.unwrap_or(0),
    };
    Answer::Found {
        opened: search.opened,
        size: sheet::write(out, sheet),
    }
}

// The answer to a query of a prepared plan (prepare::prepare) that no line refuses.
pub fn find(prepared: PreparedPlan, query: Query, out: &mut [u8]) -> Answer
    requires ready { (b : List ℕ)
        × IsReady b prepared query }
    requires room { max_sheet_bytes ≤ length out.old }
    ensures { (b : List ℕ)
        → IsReady b prepared.entry query
        → Told (reply_of (Ok result)) out.old out.new (unless_refused 0 (request_of b query out.old)) }
{
    let stepped = run::run(prepared, query);
    let search = stepped.search;
    let opened = search.opened;
    let Some(ending) = stepped.ending else {
        return Answer::Paused { opened };
    };
    match ending {
        Ending::Found => write_best(prepared, query.trip, search, out),
        Ending::Nothing => Answer::Nothing { opened },
        Ending::Spent => Answer::Spent { opened },
    }
}

// The same of an accepted plan, which is prepared first, in arrays of these sizes.
fn find_in<const W: usize, const C: usize>(
    plan: AcceptedPlan,
    query: Query,
    out: &mut [u8],
) -> Answer
    requires bytes { Bytes plan.bytes.now }
    requires words_fit { max_named + records plan.bytes.now ≤ W }
    requires clauses_fit { records plan.bytes.now ≤ C }
    requires words_few { W ≤ max_named + max_records }
    requires clauses_few { C ≤ max_records }
    requires ends { wrong_ends (plan_of plan.bytes.now) query.trip.s query.trip.t ≡ false }
    requires lock { wrong_lock (plan_of plan.bytes.now) query.trip.lock ≡ false }
    requires room { max_sheet_bytes ≤ length out.old }
    ensures { Told (reply_of (Ok result)) out.old out.new (unless_refused 0 (request_of plan.entry.bytes.now query out.old)) }
{
    let mut words = [0u64; W];
    let mut numbers = [0u16; NUMBERS];
    let mut places = [0u8; MAX_RECORDS];
    let mut clauses = [0u32; C];
    prepare::prepare(plan, &mut words, &mut numbers, &mut places, &mut clauses);
    let prepared = PreparedPlan {
        words: &words,
        numbers: &numbers,
        places: &places,
        clauses: &clauses,
    };
    find(prepared, query, out)
}

// The same of any accepted plan. The arrays are cleared for each query, so a small plan (SMALL_PLAN) gets smaller ones.
fn find_route(plan: AcceptedPlan, query: Query, out: &mut [u8]) -> Answer
    requires bytes { Bytes plan.bytes.now }
    requires ends { wrong_ends (plan_of plan.bytes.now) query.trip.s query.trip.t ≡ false }
    requires lock { wrong_lock (plan_of plan.bytes.now) query.trip.lock ≡ false }
    requires room { max_sheet_bytes ≤ length out.old }
    ensures { Told (reply_of (Ok result)) out.old out.new (unless_refused 0 (request_of plan.entry.bytes.now query out.old)) }
{
    if plan.records() <= SMALL_PLAN {
        return find_in::<SMALL_WORDS, SMALL_PLAN>(plan, query, out);
    }
    find_in::<WORDS, MAX_RECORDS>(plan, query, out)
}

// Answers a query. On a route its sheet is written to the start of the out buffer; else, on a refusal too, no byte of it changes.
pub fn search(p: &[u8], query: Query, out: &mut [u8]) -> Result<Answer, Refusal>
    ensures { Told (reply_of result) out.old out.new (outcome (request_of p.now query out.old)) }
{
    let plan = plan::check::check(p)?;
    if path::wrong_ends(plan, query.trip) {
        return Err(Refusal::WrongEnds);
    }
    if path::wrong_lock(plan, query.trip.lock) {
        return Err(Refusal::WrongLock);
    }
    if query::wrong_query(query) {
        return Err(Refusal::WrongQuery);
    }
    if out.len() < MAX_SHEET_BYTES {
        return Err(Refusal::ShortBuffer);
    }
    Ok(find_route(plan, query, out))
}
