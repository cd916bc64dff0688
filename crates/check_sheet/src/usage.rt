// How the program is used, in words.
pub const USAGE: &[u8] = b"usage: check_sheet PLAN S T SHEET [MASK VALUES]
Checks a route sheet against a depot plan.
  PLAN    the file that holds the plan; - is standard input
  S       the number of the junction where the route begins, from 1
  T       the number of the junction where it ends, from 1
  SHEET   the file that holds the sheet
  MASK    the modes that the depot sets, as the sum of 2^(m-1) for each such
          mode m; 0, no mode, if left out
  VALUES  those of them that are on, as such a sum; left out only with MASK
Numbers are decimal and below 2^64. Prints one of
  accepted
  refused n: ..   line n of the refusal table, and its words
-h or --help prints this, --version the versions of the planner and its kit.
The exit status says nothing: it is always 0.
";
