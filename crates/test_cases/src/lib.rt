// What the programs that run cases have in common: a case is a line of text, and its bytes are built field by field.
//
//   records   fields and records, written into a buffer
//   lines     what a line of text says: numbers, signs and the records that it changes
//   cases     the cases of a script, each with the plan that it is about
//   plans     the plans that cases start from, among them plan P of the paper
//   trips     the trips that lines say
//   print     words and numbers
//   input     what a program is given to read
#![tactic(auto)]

pub mod cases;
pub mod input;
pub mod lines;
pub mod plans;
pub mod print;
pub mod records;
pub mod trips;
