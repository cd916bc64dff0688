// The named belts of an accepted plan: those in some rule. Their list, and the place of each belt among them.
ghost use Rattle.std.specs.Prelude.{◌≡◌, IfSome, List, ℕ, ◌<◌, length, replicate, take, map};
ghost use Rattle.plan.specs.Bounds.{max_records, max_named};
ghost use Rattle.plan.specs.Plan.{plan_of, named, listed, places_of, place_in, place_of, belt_id};
ghost use Rattle.plan.specs.Reading.{Accepted, IsBelt};

use crate::accepted::AcceptedPlan;
use crate::bounds::{MAX_NAMED, MAX_RECORDS};
use crate::notes;
use crate::read::BeltId;

// The named belts of an accepted plan in rising order; the rest of the array is BeltId(0). The planner has no heap, so the array has room for all.
#[derive(Clone, Copy)]
pub struct Named<'a> {
    pub plan: AcceptedPlan<'a>,
    pub count: usize,
    pub belts: [BeltId; MAX_NAMED],
    pub ghost counted: { count ≡ length (named (plan_of plan.bytes.now)) },
    pub ghost listed: { belts ≡ listed (named (plan_of plan.bytes.now)) },
}

// An accepted plan with the array of the places of its named belts. A place is a byte there, one more than it is and 0 for none, as `places_of` has it,
// by which docs/CLAIMS.md says what a prepared plan is.
#[derive(Clone, Copy)]
pub struct PlacedPlan<'a> {
    pub plan: AcceptedPlan<'a>,
    pub places: &'a [u8; MAX_RECORDS],
    pub ghost placed: { places.now ≡ places_of (named (plan_of plan.bytes.now)) },
}

impl<'a> PlacedPlan<'a> {
    // The place of a belt among the named belts, counted from 0.
    pub fn place_of(self, belt: BeltId) -> Option<usize>
        requires { IsBelt self.plan.bytes.now belt.0 }
        ensures place { result ≡ place_of (named (plan_of self.entry.plan.bytes.now)) belt.0 }
        ensures low { IfSome result (λ k. k < max_named) }
    {
        usize::from(self.places[usize::from(belt.0)]).checked_sub(1)
    }
}

impl<'a> Named<'a> {
    pub fn belts(&self) -> &[BeltId]
        ensures { result.now ≡ map belt_id (named (plan_of self.now.plan.bytes.now)) }
    {
        &self.belts[..self.count]
    }

    // Fills the array in which `place_of` looks places up: for each belt its place among the named belts. The array is all 0 before.
    pub fn fill_places(&self, places: &mut [u8; MAX_RECORDS])
        requires { places.old ≡ replicate max_records 0 }
        ensures { places.new ≡ places_of (named (plan_of self.now.plan.bytes.now)) }
    {
        places_among(self.belts(), places);
    }
}

// The same from the list of named belts alone: the plan that they are of is not at hand. What is filled is said of every accepted plan with these named
// belts, and there has to be one.
pub fn places_among(belts: &[BeltId], places: &mut [u8; MAX_RECORDS])
    requires list { (b : List ℕ)
        × Accepted b
        × (belts.now ≡ map belt_id (named (plan_of b))) }
    requires fresh { places.old ≡ replicate max_records 0 }
    ensures { (b : List ℕ)
        → Accepted b
        → belts.now ≡ map belt_id (named (plan_of b))
        → places.new ≡ places_of (named (plan_of b)) }
{
    for (k, belt) in belts.iter().enumerate() {
        places[usize::from(belt.0)] = (k + 1) as u8;
    }
}

impl<'a> AcceptedPlan<'a> {
    // The named belts.
    pub fn named_belts(self) -> Named<'a>
        ensures { result.plan.bytes.now ≡ self.entry.bytes.now }
    {
        let mut marks = [0u8; MAX_RECORDS];
        notes::note_named(self.bytes, &mut marks);
        let n = self.records();
        let mut belts = [BeltId(0); MAX_NAMED];
        let mut count = 0;
        for e in 0..n {
            if marks[e] == 1 {
                belts[count] = BeltId(e as u16);
                count += 1;
            }
        }
        Named {
            plan: self,
            count,
            belts,
        }
    }

    // The places of all belts among the named belts.
    pub fn named_places(self) -> [u8; MAX_RECORDS]
        ensures { result ≡ places_of (named (plan_of self.entry.bytes.now)) }
    {
        let mut places = [0u8; MAX_RECORDS];
        self.named_belts().fill_places(&mut places);
        places
    }
}

// Looks up the place of a belt among the named belts, counted from 0, in the array that `named_places` makes.
pub fn place_of(places: &[u8], belt: BeltId) -> Option<usize>
    requires { belt.0 < length places.now }
    ensures { result ≡ place_in places.now belt.0 }
{
    usize::from(places[usize::from(belt.0)]).checked_sub(1)
}
