// The trips that lines of text say.
ghost use Rattle.std.specs.Prelude.{◌≡◌};
ghost use Rattle.test_cases.specs.Lines.{number_in};
ghost use Rattle.test_cases.specs.Trips.{lock_in, trip_in};

use crate::lines::Line;
use route::path::{Lock, Trip};

// The lock behind the plus of the line; without a plus no mode is locked.
fn lock_of(line: Line) -> Lock
    ensures { result ≡ lock_in line.entry.rest.now }
{
    let mut lock = line.behind(b'+');
    Lock {
        mask: lock.number_or_zero(),
        values: lock.number_or_zero(),
    }
}

// The trip of the line: s and t, which are read, and the lock behind a plus, if there is one further on.
pub fn next_trip(line: &mut Line) -> Trip
    ensures trip { result ≡ trip_in line.old.rest.now }
    ensures rest { line.new.rest.now ≡ (number_in (number_in line.old.rest.now).rest).rest }
{
    let s = line.number_or_zero();
    let t = line.number_or_zero();
    Trip {
        s,
        t,
        lock: lock_of(*line),
    }
}
