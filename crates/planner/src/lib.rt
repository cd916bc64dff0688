// The C interface, declared in include/planner.h: the check of a plan, the search, the check of a sheet, and the archive form of a plan. A slice is lent
// as a pointer and a length; a query and a reply are handed over by value. What they answer and write is what the crates below say; no function asks
// anything of its caller.
#![tactic(auto)]

ghost use Rattle.std.specs.Prelude.{◌≡◌};
ghost use Rattle.plan.specs.Refusals.{refusal};
ghost use Rattle.route.specs.Refusals.{sheet_refusal};
ghost use Rattle.route.specs.Values.{case_of};
ghost use Rattle.search.specs.Answers.{outcome, reply_to, out_after};
ghost use Rattle.archive.specs.Answers.{lent_of, archive_after};
ghost use Rattle.planner.specs.Interface.{trip_of, query_of, call_of, to_caller, archive_reply};

use plan::refusal;
use route::path::{Lock, Trip};
use search::entry;
use search::entry::Reply;
use search::query::Query;

// A query of a caller. Bit m-1 of mask locks mode m, and that of values says that it is locked on. No function looks at minute yet: it is for later,
// and a caller sets it to 0.
#[repr(C)]
#[derive(Clone, Copy, Debug, PartialEq, Eq)]
pub struct PlannerQuery {
    pub s: u64,
    pub t: u64,
    pub pick: u64,
    pub order: u64,
    pub budget: u64,
    pub mask: u64,
    pub values: u64,
    pub minute: u64,
}

// The reply to a caller: 0 for a route or an archive form, 100 for none, 101 for spent, or the number of the broken line; how many subproblems were
// opened; and the length of what was written. What an answer does not have is 0. No function counts tests yet: they are 0.
#[repr(C)]
#[derive(Clone, Copy, Debug, PartialEq, Eq)]
pub struct PlannerReply {
    pub number: u64,
    pub opened: u64,
    pub length: u64,
    pub tests: u64,
}

// The trip that a query asks for, or a sheet is checked for: s, t and the lock.
impl From<PlannerQuery> for Trip {
    ghost from_gives = { λ query trip. trip ≡ trip_of query };

    fn from(query: PlannerQuery) -> Trip {
        Trip {
            s: query.s,
            t: query.t,
            lock: Lock {
                mask: query.mask,
                values: query.values,
            },
        }
    }
}

impl From<PlannerQuery> for Query {
    ghost from_gives = { λ query asked. asked ≡ query_of query };

    fn from(query: PlannerQuery) -> Query {
        Query {
            trip: Trip::from(query),
            pick: query.pick,
            order: query.order,
            budget: query.budget,
        }
    }
}

impl From<Reply> for PlannerReply {
    ghost from_gives = { λ reply handed. handed ≡ to_caller reply };

    fn from(reply: Reply) -> PlannerReply {
        PlannerReply {
            number: u64::from(reply.number),
            opened: reply.opened,
            // No From makes a u64 of a usize.
            length: reply.size as u64,
            tests: 0,
        }
    }
}

// Checks a plan: 0, or the number of the first broken line.
#[unsafe(no_mangle)]
pub extern "C" fn planner_check_plan(p: &[u8]) -> u64
    ensures { result ≡ refusal p.now }
{
    u64::from(refusal::number(plan::check::check(p)))
}

// Answers a query. On a route its sheet is written to the start of `out`; else no byte of it changes.
#[unsafe(no_mangle)]
pub extern "C" fn planner_search(p: &[u8], query: PlannerQuery, out: &mut [u8]) -> PlannerReply
    ensures reply { result ≡ to_caller (reply_to (outcome (call_of p.now query out.old))) }
    ensures out { out.new ≡ out_after (outcome (call_of p.now query out.old)) out.old }
{
    let answer = entry::search(p, Query::from(query), out);
    PlannerReply::from(Reply::from(answer))
}

// Checks a sheet against a plan: 0, or the number of the first broken line. Of the query it looks at s, t, mask and values alone.
#[unsafe(no_mangle)]
pub extern "C" fn planner_check_sheet(p: &[u8], query: PlannerQuery, sheet: &[u8]) -> u64
    ensures { result ≡ sheet_refusal (case_of p.now (trip_of query) sheet.now) }
{
    u64::from(refusal::number(route::check::check(p, Trip::from(query), sheet)))
}

// Writes the archive form of a plan to the start of `out`; on a refusal no byte of it changes.
#[unsafe(no_mangle)]
pub extern "C" fn planner_archive(p: &[u8], out: &mut [u8]) -> PlannerReply
    ensures reply { result ≡ archive_reply (lent_of p.now out.old) }
    ensures out { out.new ≡ archive_after (lent_of p.now out.old) out.old }
{
    let answer = archive::entry::archive(p, out);
    PlannerReply::from(Reply {
        number: refusal::number(answer),
        opened: 0,
        size: answer.unwrap_or(0),
    })
}
