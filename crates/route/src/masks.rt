// Sets of named belts as masks: bit k stands for the belt at place k among the named belts (plan::named).
ghost use Rattle.std.specs.Prelude.{◌≡◌};
ghost use Rattle.route.specs.Values.{ids_of, in_mask, LowPlace, with_place, gathered_in, Placeable};

use crate::path::Route;
use plan::bounds::MAX_RECORDS;
use plan::named;

// Whether a mask has a place.
pub fn has(mask: u64, place: Option<usize>) -> bool
    requires { LowPlace place }
    ensures { result ≡ in_mask mask place }
{
    place.is_some_and(|k| (mask >> k) % 2 == 1)
}

// The mask with this place in it.
pub fn with(mask: u64, place: Option<usize>) -> u64
    requires { LowPlace place }
    ensures { result ≡ with_place mask place }
{
    place.map_or(mask, |k| mask | (1 << k))
}

// The named belts on a route. `places` are those of the named belts (AcceptedPlan::named_places).
pub fn on_route(places: &[u8; MAX_RECORDS], route: Route) -> u64
    requires { Placeable places.now route }
    ensures { result ≡ gathered_in places.now 0 (ids_of route) }
{
    let mut mask = 0;
    for &belt in &route.belts[..route.count] {
        mask = with(mask, named::place_of(places, belt));
    }
    mask
}
