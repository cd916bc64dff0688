// How the program is used, in words.
pub const USAGE: &[u8] = b"usage: show_plan [PLAN]
Shows a depot plan in words.
  PLAN   the file that holds the plan; - or none is standard input
Prints, for an accepted plan, the counts of junctions and modes, a line for each
belt, a line for each rule and the belts in rules; a belt in rules has a place
among them. For any other it prints
  refused n   line n of the refusal table, whose words go to standard error
-h or --help prints this, --version the versions of the planner and its kit.
The exit status says nothing: it is always 0.
";
