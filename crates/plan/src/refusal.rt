// The lines of the refusal table, one case for each. Whatever the planner refuses, it refuses with one of these.
ghost use Rattle.std.specs.Prelude.{◌≡◌};
ghost use Rattle.plan.specs.Refusals.{refusal_number, number_of};

// Why something is refused: the first broken line of the table.
#[derive(Clone, Copy, Debug, PartialEq, Eq)]
pub enum Refusal {
    // 1: the plan has a wrong size.
    WrongSize,
    // 2: record 0 of the plan is wrong.
    WrongHeader,
    // 3: a record has a wrong kind, or a wrong value in a ranged field or a zero field.
    WrongRecord,
    // 4: a chain index is wrong, or a record is reached twice or never.
    WrongChain,
    // 5: a belt does not lead to a higher junction.
    BackwardBelt,
    // 6: a literal names no belt and no mode.
    WrongLiteral,
    // 7: the plan has over 48 named belts.
    ManyNamed,
    // 8: s or t is outside 1 to J.
    WrongEnds,
    // 9: the pick is over 2, the order over 1, or the budget 0.
    WrongQuery,
    // 10: the out buffer has under 3,072 bytes.
    ShortBuffer,
    // 11: the sheet is empty, too long, not in the form, names no belt, or sets a mode that is not there.
    WrongSheet,
    // 12: the belts of the sheet are no route from s to t.
    NotARoute,
    // 13: the cost on the sheet differs from the sum.
    WrongCost,
    // 14: a rule is not met under the sheet's setting, or the setting breaks the lock.
    UnmetRule,
    // 15: the mask of the lock has a mode that is not there, or its values have a mode outside the mask.
    WrongLock,
    // 16: the out buffer for a plan is shorter than the plan.
    ShortPlanBuffer,
}

// The line's number in the table.
impl From<Refusal> for u8 {
    ghost from_gives = { λ r n. n ≡ refusal_number r };

    fn from(r: Refusal) -> u8 {
        match r {
            Refusal::WrongSize => 1,
            Refusal::WrongHeader => 2,
            Refusal::WrongRecord => 3,
            Refusal::WrongChain => 4,
            Refusal::BackwardBelt => 5,
            Refusal::WrongLiteral => 6,
            Refusal::ManyNamed => 7,
            Refusal::WrongEnds => 8,
            Refusal::WrongQuery => 9,
            Refusal::ShortBuffer => 10,
            Refusal::WrongSheet => 11,
            Refusal::NotARoute => 12,
            Refusal::WrongCost => 13,
            Refusal::UnmetRule => 14,
            Refusal::WrongLock => 15,
            Refusal::ShortPlanBuffer => 16,
        }
    }
}

// The number of an answer: that of the broken line, or 0 where nothing is refused.
pub fn number<T: Copy>(answer: Result<T, Refusal>) -> u8
    ensures { result ≡ number_of answer }
{
    match answer {
        Ok(_) => 0,
        Err(r) => u8::from(r),
    }
}
