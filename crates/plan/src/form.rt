// Lines 2 and 3 of the refusal table: record 0, and each record by itself.
ghost use Rattle.std.specs.Prelude.{◌≡◌, false, ◌&&◌, ◌<◌};
ghost use Rattle.plan.specs.Records.{field, fits};
ghost use Rattle.plan.specs.Refusals.{broken2, broken3, right_kind};

use crate::record::Kind;
use crate::records::Records;
use crate::table;

// Line 2: whether record 0 is wrong, or leaves no room for its junctions.
pub fn wrong_header(plan: Records<'_>) -> bool
    ensures { result ≡ broken2 plan.entry.bytes.now }
{
    !(plan.is(0, Kind::Header)
        && table::fits(plan, plan.field(0, 1), Kind::Header, 0)
        && plan.junctions() < plan.count)
}

// Whether record r is of a kind that may stand at its index, and its unused and ranged fields are as that kind wants them. Each arm passes its kind
// as a constant, so that the compiler keeps only the tests of this kind of `table::fits`.
fn right_record(plan: Records<'_>, junctions: u16, r: usize) -> bool
    requires record { r < plan.count }
    requires junctions { junctions ≡ field plan.bytes.now 0 1 }
    ensures { result ≡ (right_kind plan.entry.bytes.now r && fits plan.entry.bytes.now r) }
{
    let kind = plan.field(r, 0);
    if r <= usize::from(junctions) {
        return kind == u16::from(Kind::Junction) && table::fits(plan, junctions, Kind::Junction, r);
    }
    match Kind::try_from(kind) {
        Ok(Kind::Belt) => table::fits(plan, junctions, Kind::Belt, r),
        Ok(Kind::Rule) => table::fits(plan, junctions, Kind::Rule, r),
        Ok(Kind::Literal) => table::fits(plan, junctions, Kind::Literal, r),
        _ => false,
    }
}

// Line 3: whether a record above 0 is of a wrong kind, or has a wrong field.
pub fn wrong_record(plan: Records<'_>) -> bool
    ensures { result ≡ broken3 plan.entry.bytes.now }
{
    let junctions = plan.field(0, 1);
    (1..plan.count).any(|r| !right_record(plan, junctions, r))
}
