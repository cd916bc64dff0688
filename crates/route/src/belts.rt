// A route as the code holds it: its belts, in a fixed array with room for the longest route.
ghost use Rattle.std.specs.Prelude.{◌≤◌};
ghost use Rattle.plan.specs.Bounds.{max_steps};

use plan::bounds::MAX_STEPS;
use plan::read::BeltId;

// A route: its belts in order are the first `count` of the array.
#[derive(Clone, Copy)]
pub struct Route {
    pub count: usize,
    pub belts: [BeltId; MAX_STEPS],
    pub ghost few: { count ≤ max_steps },
}

impl Route {
    ghost use Rattle.std.specs.Prelude.{◌≡◌, [], take};
    ghost use Rattle.route.specs.Values.{packed};

    // The route without belts.
    pub fn empty() -> Route
        ensures { result ≡ packed [] }
    {
        Route {
            count: 0,
            belts: [BeltId(0); MAX_STEPS],
        }
    }

    // Its belts in order.
    pub fn belts(&self) -> &[BeltId]
        ensures { result.now ≡ take self.now.count self.now.belts }
    {
        &self.belts[..self.count]
    }
}
