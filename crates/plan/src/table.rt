// The unused and ranged fields of each kind of record: the table `rows` of specs/Records.antt as a `match` with an arm for each kind. A loop over a
// row that is looked up would take most of the time of a check. The chain indices of the rows are followed in chain.rt.
ghost use Rattle.std.specs.Prelude.{◌≡◌, ◌&&◌, ◌+◌, ◌<◌, eqb};
ghost use Rattle.plan.specs.Lists.{within};
ghost use Rattle.plan.specs.Records.{field, fits};
ghost use Rattle.plan.specs.Kinds.{kind_number};

use crate::bounds::{MAX_JUNCTIONS, MAX_MODES};
use crate::record::Kind;
use crate::records::Records;

// Whether fields f and f + 1 of record r are zero: one test of both as one number.
fn zeros(plan: Records<'_>, r: usize, f: usize) -> bool
    requires record { r < plan.count }
    requires field { f < 5 }
    ensures { result ≡ (eqb (field plan.entry.bytes.now r f) 0 && eqb (field plan.entry.bytes.now r (f + 1)) 0) }
{
    plan.field(r, f) | plan.field(r, f + 1) == 0
}

// Whether field f of record r is from a to z.
fn ranged(plan: Records<'_>, r: usize, f: usize, a: u16, z: u16) -> bool
    requires record { r < plan.count }
    requires field { f < 6 }
    ensures { result ≡ within a (field plan.entry.bytes.now r f) z }
{
    (a..=z).contains(&plan.field(r, f))
}

// Whether the unused and ranged fields of record r are as the row of its kind wants them. All tests of an arm are evaluated, so that there is no
// branch for each of them.
pub fn fits(plan: Records<'_>, junctions: u16, kind: Kind, r: usize) -> bool
    requires record { r < plan.count }
    requires junctions { junctions ≡ field plan.bytes.now 0 1 }
    requires kind { kind_number kind ≡ field plan.bytes.now r 0 }
    ensures { result ≡ fits plan.entry.bytes.now r }
{
    match kind {
        Kind::Header => {
            ranged(plan, r, 1, 1, MAX_JUNCTIONS as u16)
                & ranged(plan, r, 2, 0, MAX_MODES as u16)
                & (plan.field(r, 5) == 0)
        }
        Kind::Junction => zeros(plan, r, 2) & zeros(plan, r, 4),
        // Field 5 first: behind the range, the compiler would join the end of this arm to that of literals, by a jump more.
        Kind::Belt => (plan.field(r, 5) == 0) & ranged(plan, r, 2, 1, junctions),
        Kind::Rule => (plan.field(r, 3) == 0) & zeros(plan, r, 4),
        Kind::Literal => {
            ranged(plan, r, 2, 0, 1) & ranged(plan, r, 3, 0, 1) & (plan.field(r, 5) == 0)
        }
    }
}
