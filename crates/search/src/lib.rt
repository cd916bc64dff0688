// The search for the cheapest permitted route of an accepted plan.
//
//   query   what is asked: line 9 of the refusal table
//   counts  in how many rules each named belt is
//   prepare a plan prepared for searches
//   pick    the belt that a subproblem is branched on
//   state   the search between two steps, and one step of it
//   run     the search from its beginning to its ending
//   entry   the planner's answer to a query, for any bytes and any numbers
#![tactic(auto)]

mod counts;
pub mod entry;
mod pick;
pub mod prepare;
pub mod query;
mod run;
pub mod state;
