// The cases of a script. Its lines are
//
//   # ..         a remark, as is an empty line
//   = P 84 ..    a plan: where it starts from (P, N or R, see `plans`), its size in bytes, and the records in which it differs
//    4: ..       more records of the plan above; the line begins with a space
//   name ..      a case, which is about the plan above
ghost use Rattle.std.specs.Prelude.{◌≡◌};
ghost use Rattle.test_cases.specs.Cases.{cases_in, cases_left};

use crate::lines::{Line, Lines};
use crate::plans::Plan;

// The cases that are left: the plan so far, and the lines.
#[derive(Debug, Drop)]
pub struct Cases<'a> {
    pub plan: Plan,
    pub lines: Lines<'a>,
}

impl<'a> Cases<'a> {
    // The cases of a text, each with its plan.
    pub fn of(text: &'a [u8]) -> Cases<'a>
        ensures { cases_left result ≡ cases_in text.now }
    {
        Cases {
            plan: Plan::none(),
            lines: Lines::of(text),
        }
    }
}

impl<'a> Iterator for Cases<'a> {
    ghost use Rattle.std.specs.Iterator.{YieldsFirstBy, item_count};
    ghost use Rattle.test_cases.specs.Cases.{case_of, cases_left};

    type Item = (Plan, Line<'a>);

    ghost next_gives = { YieldsFirstBy case_of cases_left };

    ghost remaining = { item_count cases_left };

    fn next(&mut self) -> Option<(Plan, Line<'a>)> {
        while let Some(line) = self.lines.next() {
            match line.byte(0) {
                b'=' => self.plan = Plan::read(line),
                b' ' => self.plan = self.plan.changed(line),
                b'#' | b'\n' => {}
                _ => return Some((self.plan, line)),
            }
        }
        None
    }
}
