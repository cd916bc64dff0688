// Routes of an accepted plan: which are permitted, and the sheets that record them.
//
//   belts   a route as the code holds it
//   path    what is asked of a route, and its belts: whether they connect, what they cost, and which of two routes comes before the other
//   rules   whether every rule is met by a route under a setting of the modes
//   modes   the lowest setting that agrees with the lock and meets every rule
//   masks   sets of named belts
//   clauses the chains of rules and literals as numbers, decoded once
//   ways    the backward pass over words: from each junction the cost of the way on, and its first belt
//   relax   the relaxed route of a subproblem
//   sheet   route sheets, written and read
//   check   the check of a sheet: lines 1 to 8, 15 and 11 to 14 of the refusal table
#![tactic(auto)]

pub mod belts;
pub mod check;
pub mod clauses;
pub mod masks;
pub mod modes;
pub mod path;
pub mod relax;
mod rules;
pub mod sheet;
mod ways;
