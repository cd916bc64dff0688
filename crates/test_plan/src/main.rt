// Runs the check of plans on plans that are built field by field, and prints for each its name and the number answered:
// 0 where it is accepted, else the line of the paper's refusal table. The numbers in `stdout` are taken from the paper.
//
//   plans     the plans that the cases start from, among them plan P of the paper
//   script    cases as lines of text: a name, the size in bytes, and the records that are changed
//   sizes     cases of lines 1 and 2
//   fields    cases of line 3
//   links     cases of line 4
//   names     cases of lines 5 to 7
//   several   plans that break several lines
#![tactic(auto)]

mod fields;
mod links;
mod names;
mod plans;
mod script;
mod several;
mod sizes;

fn main(rt: HostRuntime) {
    sizes::run(&rt);
    fields::run(&rt);
    links::run(&rt);
    names::run(&rt);
    several::run(&rt)
}
