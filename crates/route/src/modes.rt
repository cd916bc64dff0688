// The lowest setting of the modes that works: it agrees with the lock, and meets every rule. In a setting mode m counts 2^(m-1).
ghost use Rattle.std.specs.Prelude.{◌≡◌, false, List, ℕ, ◌+◌, ◌*◌, ◌^◌, ◌≤◌};
ghost use Rattle.plan.specs.Bounds.{max_modes};
ghost use Rattle.plan.specs.Plan.{Plan, plan_of};
ghost use Rattle.route.specs.Permission.{agrees, wrong_lock, locked_terms, terms_of, works, find, lowest};
ghost use Rattle.route.specs.Values.{setting_in, has_belt, Ruled};
ghost use Rattle.route.specs.Inner.{Settled, settings_at};

use crate::path::{Lock, Trip};
use crate::rules;
use plan::read::ModeId;

// Whether a setting agrees with a lock: it differs from the values in no locked mode. This is so for every plan of which the lock is not wrong.
pub fn agrees(lock: Lock, setting: u16) -> bool
    requires { (p : Plan)
        × (wrong_lock p lock ≡ false) }
    ensures { (p : Plan)
        → wrong_lock p lock ≡ false
        → result ≡ agrees p.modes lock setting }
{
    (u64::from(setting) ^ lock.values) & lock.mask == 0
}

// The lowest setting that works and has the modes above this one as `setting` has them: this mode and the lower ones are settled, the highest first.
// `setting` has those of them that are locked as the lock says, and the others off. ModeId(0) says that every mode is set. `belts` is the mask of the
// named belts on the route, and `locked` that of the lock, which may be any lock with this mask.
#[cycle(settle_try_both)]
fn settle(clauses: &[u32], belts: u64, locked: u64, mode: ModeId, setting: u16) -> Option<u16>
    requires { (b : List ℕ)
        × (k : Lock)
        × Ruled b clauses.now
        × (k.mask ≡ locked)
        × Settled (plan_of b) k mode.0 setting
        × (mode.0 ≤ max_modes)
        × (setting + 2 ^ mode.0 ≤ 2 * 2 ^ max_modes) }
    ensures { (b : List ℕ)
        → (k : Lock)
        → Ruled b clauses.now
        → k.mask ≡ locked
        → Settled (plan_of b) k mode.0 setting
        → setting_in result ≡ find (works (locked_terms (plan_of b) k) (has_belt b belts)) (settings_at mode.0 setting) }
{
    if mode.0 == 0 {
        rules::all_met(clauses, belts, setting).then_some(setting)
    } else {
        try_both(clauses, belts, locked, mode, setting)
    }
}

// The same, where a mode is left: off is tried before on. A locked mode has one position, which `setting` has, and the other is not tried.
#[cycle(settle_try_both)]
fn try_both(clauses: &[u32], belts: u64, locked: u64, mode: ModeId, setting: u16) -> Option<u16>
    requires { (b : List ℕ)
        × (k : Lock)
        × Ruled b clauses.now
        × (k.mask ≡ locked)
        × Settled (plan_of b) k mode.0 setting
        × (1 ≤ mode.0)
        × (mode.0 ≤ max_modes)
        × (setting + 2 ^ mode.0 ≤ 2 * 2 ^ max_modes) }
    ensures { (b : List ℕ)
        → (k : Lock)
        → Ruled b clauses.now
        → k.mask ≡ locked
        → Settled (plan_of b) k mode.0 setting
        → setting_in result ≡ find (works (locked_terms (plan_of b) k) (has_belt b belts)) (settings_at mode.0 setting) }
{
    let lower = mode.0 - 1;
    let off = settle(clauses, belts, locked, ModeId(lower), setting);
    if off.is_some() || rules::is_on(locked, mode) {
        return off;
    }
    let with_mode = setting + (1u16 << lower);
    settle(clauses, belts, locked, ModeId(lower), with_mode)
}

// The lowest setting that works for a trip, if any does, where the named belts of the mask `belts` are on the route (masks::on_route): the rule test of a route.
// `modes` is how many modes the plan has (AcceptedPlan::modes), and `clauses` are its clauses (clauses::decode).
pub fn lowest_setting(modes: usize, clauses: &[u32], trip: Trip, belts: u64) -> Option<u16>
    requires { (b : List ℕ)
        × Ruled b clauses.now
        × (modes ≡ (plan_of b).modes)
        × (wrong_lock (plan_of b) trip.lock ≡ false) }
    ensures { (b : List ℕ)
        → Ruled b clauses.now
        → modes ≡ (plan_of b).modes
        → wrong_lock (plan_of b) trip.lock ≡ false
        → setting_in result ≡ lowest (terms_of (plan_of b) trip) (has_belt b belts) }
{
    let Lock { mask, values } = trip.lock;
    settle(clauses, belts, mask, ModeId(modes as u16), values as u16)
}
