// How the program is used, in words.
pub const USAGE: &[u8] = b"usage: list_routes [PLAN]
Lists the cheapest permitted routes of a depot plan, a line for every two
junctions s < t.
  PLAN   the file that holds the plan; - or none is standard input
A line is one of
  s t cost setting opened belts..   a route
  s t none opened                   no route is permitted
  s t spent opened                  1000000 subproblems are too few to know
For a plan that is not accepted the only line is
  refused n                         line n of the refusal table, whose words
                                    go to standard error
-h or --help prints this, --version the versions of the planner and its kit.
The exit status says nothing: it is always 0.
";
