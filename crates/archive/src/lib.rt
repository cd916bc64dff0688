// The archive form of a plan: the plan written anew, with its belts in rising index and then each rule followed by its literals, so that the same plan
// with its rules and literals in other places, and its belts in the same order, has the same archive form.
//
//   indices  the new index of each belt
//   writer   the records of each sort, and all of them
//   entry    the archive form of any bytes, with the refusals
#![tactic(auto)]

pub mod entry;
mod indices;
mod writer;
