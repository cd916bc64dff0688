// How the program is used, in words.
pub const USAGE: &[u8] = b"usage: archive_plan PLAN OUT
Writes a depot plan anew in its archive form.
  PLAN   the file that holds the plan; - is standard input
  OUT    the file for the archive form. A file that holds something else is
         not replaced, and then nothing is printed
Belts get new indices, in the order of their old ones. Two plans have the same
archive form exactly when junctions, modes, the belts in their order and the
rules agree, wherever rules and literals stand.
Prints one of
  written n   the archive form is in OUT; it has n bytes
  refused n   line n of the refusal table, whose words go to standard error
-h or --help prints this, --version the versions of the planner and its kit.
The exit status says nothing: it is always 0.
";
