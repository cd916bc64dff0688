// Depot plans: any bytes are refused with the paper's number or are an accepted plan, whose parts can then be read.
//
//   bounds   the limits of the format, by name
//   refusal  the lines of the refusal table
//   accepted the bytes of an accepted plan
//   record   fields of 12-byte records, read and written, and the kinds of records
//   records  the bytes of a plan of a right size (line 1), as records
//   table    what each kind of record holds in its unused and ranged fields
//   check    the check of a plan, out of lines 1 to 7 of the refusal table:
//   form     lines 2 and 3, a record at a time
//   chain    line 4, the chain indices
//   belts    lines 5 and 6, belts and literals
//   notes    line 7, the marks of the named belts
//   read     readers of an accepted plan
//   named    its named belts, and their places
//   words    its belts as words, by the junction that they leave
#![tactic(auto)]

pub mod accepted;
mod belts;
pub mod bounds;
mod chain;
pub mod check;
mod form;
pub mod named;
mod notes;
pub mod read;
pub mod record;
mod records;
pub mod refusal;
mod table;
pub mod words;
