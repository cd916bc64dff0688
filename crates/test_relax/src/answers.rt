// What is printed of a case: its relaxed route, or why there is none.
ghost use Rattle.std.specs.Prelude.{◌≡◌, true, false, ◌^◌, ◌<◌};
ghost use Rattle.plan.specs.Plan.{plan_of};
ghost use Rattle.plan.specs.Reading.{Bytes};
ghost use Rattle.route.specs.Routes.{wrong_ends};
ghost use Rattle.route.specs.Values.{OfNamed, named_places};

use output::Streams;
use plan::accepted::AcceptedPlan;
use plan::bounds::{MAX_NAMED, MAX_RECORDS, MAX_STEPS};
use plan::named::PlacedPlan;
use plan::read::BeltId;
use plan::words::NUMBERS;
use route::masks;
use route::path::Trip;
use route::relax::{Fixings, Scratch, Summary};
use test_cases::lines::Line;
use test_cases::plans::Plan;
use test_cases::print::{print_number, print_words};

// The place of a belt, which may be any number.
fn place_of(places: &[u8; MAX_RECORDS], belt: u64) -> Option<usize> {
    match u16::try_from(belt) {
        Ok(belt) if usize::from(belt) < MAX_RECORDS => {
            plan::named::place_of(places, BeltId(belt))
        }
        _ => None,
    }
}

// The mask with this place in it; none where the belt has no place.
fn with(mask: u64, place: Option<usize>) -> Option<u64> {
    match place {
        Some(k) if k < 64 => Some(masks::with(mask, place)),
        _ => None,
    }
}

// The belts of the line up to the next sign, as a mask over the named belts; none where one of them is not named.
fn mask_of(places: &[u8; MAX_RECORDS], mut line: Line) -> Option<u64> {
    let mut mask = 0;
    while let Some(belt) = line.next_number() {
        mask = with(mask, place_of(places, belt))?;
    }
    Some(mask)
}

// The fixings of the line: the required belts behind a plus, the forbidden ones behind a minus. None where a belt is not named.
fn fixings_of(places: &[u8; MAX_RECORDS], line: Line) -> Option<Fixings> {
    Some(Fixings {
        required: mask_of(places, line.behind(b'+'))?,
        forbidden: mask_of(places, line.behind(b'-'))?,
    })
}

// Whether a mask has no place from this one on.
fn within(mask: u64, end: usize) -> bool
    ensures { result ≡ true → mask < 2 ^ end }
{
    end < 64 && mask >> end == 0
}

// Prints a summary, and the belts of its route, whose numbers are in `walked`.
fn print_relaxed(rt: &impl Streams, summary: Option<Summary>, walked: &[u16; MAX_STEPS]) {
    let Some(summary) = summary else {
        print_words(rt, b" none");
        return;
    };
    print_number(rt, b" ", summary.cost);
    if summary.count <= MAX_STEPS {
        listing::print_belts(rt, route::path::of_belts(walked, summary.count));
    }
}

// Prints the relaxed route of a subproblem, over what is made of the plan for it.
fn print_over(
    rt: &impl Streams,
    plan: AcceptedPlan,
    places: &[u8; MAX_RECORDS],
    trip: Trip,
    fixings: Fixings,
)
    requires { Bytes plan.bytes.now
        × (places.now ≡ named_places plan.bytes.now)
        × (wrong_ends (plan_of plan.bytes.now) trip.s trip.t ≡ false)
        × OfNamed plan.bytes.now fixings.required }
{
    let mut words = [0u64; MAX_NAMED + MAX_RECORDS];
    let mut numbers = [0u16; NUMBERS];
    PlacedPlan { plan, places }.fill_words(&mut words, &mut numbers);
    let mut scratch = Scratch::new();
    let summary = route::relax::relaxed_route(
        &words,
        &numbers,
        places,
        trip,
        fixings,
        route::relax::UNBOUNDED,
        &mut scratch,
    );
    print_relaxed(rt, summary, &scratch.walked)
}

// Prints the relaxed route of a trip with the fixings of the line; or why none is asked for. The plan may be any bytes, and the trip any numbers.
// The places of named belts are below their count, so no mask of theirs goes beyond it.
fn print_answer(rt: &impl Streams, p: &[u8], trip: Trip, line: Line) {
    let plan = match plan::check::check(p) {
        Ok(plan) => plan,
        Err(r) => return print_number(rt, b" refused ", u8::from(r)),
    };
    if route::path::wrong_ends(plan, trip) {
        return print_words(rt, b" refused 8");
    }
    let named = plan.named_belts();
    let places = plan.named_places();
    match fixings_of(&places, line) {
        Some(fixings) if within(fixings.required, named.count) => {
            print_over(rt, plan, &places, trip, fixings)
        }
        _ => print_words(rt, b" not named"),
    }
}

// Prints the answer to a case with the fixings of the line, and ends the line. There is none where the plan has more bytes than there is room for.
pub fn answer(rt: &impl Streams, plan: &Plan, trip: Trip, line: Line) {
    if let Some(p) = plan.bytes() {
        print_answer(rt, p, trip, line);
    }
    print_words(rt, b"\n");
}
