// Belts, modes, rules and literals of a plan, told by numbers.
ghost use Rattle.std.specs.Prelude.{◌≡◌, ℕ};
ghost use Rattle.plan.specs.Records.{Item, belts, rules, literals};

// A belt's index: the index of its record.
#[derive(Clone, Copy, Debug, PartialEq, Eq, PartialOrd, Ord)]
pub struct BeltId(pub u16);

// A mode's number, from 1.
#[derive(Clone, Copy, Debug, PartialEq, Eq, PartialOrd, Ord)]
pub struct ModeId(pub u16);

// A rule: the index of its record.
#[derive(Clone, Copy, Debug, PartialEq, Eq, PartialOrd, Ord)]
pub struct RuleId(pub u16);

// A literal: the index of its record.
#[derive(Clone, Copy, Debug, PartialEq, Eq, PartialOrd, Ord)]
pub struct LiteralId(pub u16);

// The index of a record that stands on a chain of records of its kind.
pub trait Chained: Copy {
    ghost kind: { ℕ };

    ghost number: { Self → ℕ };

    ghost chained: { Item kind };

    fn at(index: u16) -> Self
        ensures { number result ≡ index };

    fn index(self) -> u16
        ensures { result ≡ number self };
}

impl Chained for BeltId {
    ghost kind = { 2 };

    ghost number = { λ e. e.0 };

    ghost chained = { belts };

    fn at(index: u16) -> Self {
        BeltId(index)
    }

    fn index(self) -> u16 {
        self.0
    }
}

impl Chained for RuleId {
    ghost kind = { 3 };

    ghost number = { λ r. r.0 };

    ghost chained = { rules };

    fn at(index: u16) -> Self {
        RuleId(index)
    }

    fn index(self) -> u16 {
        self.0
    }
}

impl Chained for LiteralId {
    ghost kind = { 4 };

    ghost number = { λ l. l.0 };

    ghost chained = { literals };

    fn at(index: u16) -> Self {
        LiteralId(index)
    }

    fn index(self) -> u16 {
        self.0
    }
}

// What a literal says: a belt or a mode, and whether it is wanted.
#[derive(Clone, Copy, Debug, PartialEq, Eq)]
pub enum Literal {
    OfBelt(BeltId, bool),
    OfMode(ModeId, bool),
}
