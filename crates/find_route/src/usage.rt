// How the program is used, in words.
pub const USAGE: &[u8] = b"usage: find_route PLAN S T SHEET [PICK [ORDER [BUDGET [MASK VALUES]]]]
Finds the cheapest permitted route of a depot plan, and writes its sheet.
  PLAN    the file that holds the plan; - is standard input
  S       the number of the junction where the route begins, from 1
  T       the number of the junction where it ends, from 1
  SHEET   the file for the sheet. Only an older sheet is replaced, and only
          by a whole one: never the plan, nor any other file
  PICK    the belt to branch on: 0 the lowest, 1 the one in most rules,
          2 the lowest on the relaxed route; 0 if left out
  ORDER   the child to open next: 0 the one that forbids the belt,
          1 the one that requires it; 0 if left out
  BUDGET  how many subproblems may be opened, from 1; 1000000 if left out
  MASK    the modes that the depot sets, as the sum of 2^(m-1) for each such
          mode m; the planner sets the others. 0, no mode, if left out
  VALUES  those of them that are on, as such a sum; left out only with MASK
Numbers are decimal and below 2^64. Prints one of
  s t cost setting opened belts..   a route; its sheet is written
  s t none opened                   no route is permitted
  s t spent opened                  the budget is spent too early to know
  refused n                         line n of the refusal table, whose words
                                    go to standard error
-h or --help prints this, --version the versions of the planner and its kit.
The exit status says nothing: it is always 0.
";
