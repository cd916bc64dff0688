// The new index of each belt: belts stand behind the junctions, in the order of their old indices.
ghost use Rattle.std.specs.Prelude.{◌≡◌, MatchOption, IfSome};
ghost use Rattle.plan.specs.Plan.{plan_of};
ghost use Rattle.plan.specs.Reading.{IsBelt};
ghost use Rattle.archive.specs.Content.{content_of, new_index};
ghost use Rattle.archive.specs.Form.{rules_start};
ghost use Rattle.archive.specs.Inner.{Numbered};

use plan::accepted::AcceptedPlan;
use plan::bounds::MAX_RECORDS;
use plan::read::BeltId;

// An accepted plan whose belts are numbered anew.
#[derive(Drop)]
pub struct Renumbered<'a> {
    pub plan: AcceptedPlan<'a>,
    // The new index of each belt, at the place of its old one: an array, and not a map, since nothing here takes memory from the heap.
    indices: [u16; MAX_RECORDS],
    // The index behind the last belt, where the first rule stands.
    pub rules_at: u16,
    ghost numbered: { Numbered plan.bytes.now indices },
    pub ghost ends: { rules_at ≡ rules_start (content_of (plan_of plan.bytes.now)) },
}

impl<'a> Renumbered<'a> {
    // Numbers the belts of a plan anew.
    pub fn new(plan: AcceptedPlan<'a>) -> Self
        ensures { result.plan ≡ plan.entry }
    {
        // The index of a record fits a u16, as the check proves. No From narrows, and try_from would answer a Result that is never an Err.
        let first = plan.junctions() + 1;
        let mut indices = [0u16; MAX_RECORDS];
        let mut next = first as u16;
        for e in first..plan.records() {
            if plan.is_belt(BeltId(e as u16)) {
                indices[e] = next;
                next += 1;
            }
        }
        Renumbered {
            plan,
            indices,
            rules_at: next,
        }
    }

    // The new index of a belt.
    pub fn new_index(&self, belt: BeltId) -> u16
        requires { IsBelt self.now.plan.bytes.now belt.0 }
        ensures { result ≡ new_index (plan_of self.now.plan.bytes.now) belt.0 }
    {
        self.indices[usize::from(belt.0)]
    }

    // The new index of the belt that a chain leads to, or 0 at its end.
    pub fn link(&self, next: Option<BeltId>) -> u16
        requires { IfSome next (λ e. IsBelt self.now.plan.bytes.now e.0) }
        ensures { MatchOption next (result ≡ 0) (λ e. result ≡ new_index (plan_of self.now.plan.bytes.now) e.0) }
    {
        match next {
            Some(belt) => self.new_index(belt),
            None => 0,
        }
    }
}
