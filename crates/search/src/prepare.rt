// A plan prepared for searches: what they read of it, made once for all of them, in four arrays that the caller lends.
//
//   words     its belts as words (plan::words)
//   numbers   where the words of each junction stand (plan::words), in how many rules each named belt is, and how many modes there are
//   places    the places of its named belts (plan::named)
//   clauses   its rules (route::clauses)
//
// What a search reads is said of every plan that the arrays are of (Prepared, specs/Values.antt), and no search reads the plan's bytes.
ghost use Rattle.std.specs.Prelude.{◌≡◌, ◌+◌, ◌≤◌, ◌<◌, length, replicate};
ghost use Rattle.plan.specs.Bounds.{max_named, max_records};
ghost use Rattle.plan.specs.Records.{records};
ghost use Rattle.plan.specs.Plan.{plan_of};
ghost use Rattle.plan.specs.Words.{words_in, numbers_end, named_at};
ghost use Rattle.route.specs.Values.{named_places, clauses_in};
ghost use Rattle.search.specs.Values.{numbers_of, count_at, modes_at};

use crate::counts;
use plan::accepted::AcceptedPlan;
use plan::bounds::MAX_RECORDS;
use plan::named::PlacedPlan;
use plan::words;
use plan::words::NUMBERS;
use route::clauses;

// The arrays of a prepared plan, as all searches of it share them.
#[derive(Clone, Copy)]
pub struct PreparedPlan<'a> {
    pub words: &'a [u64],
    pub numbers: &'a [u16; NUMBERS],
    pub places: &'a [u8; MAX_RECORDS],
    pub clauses: &'a [u32],
}

impl<'a> PreparedPlan<'a> {
    // How many named belts there are.
    pub fn named(self) -> usize
        ensures { result ≡ named_at self.entry.numbers.now }
    {
        usize::from(self.numbers[words::NAMED])
    }

    // In how many rules the named belt at place k is.
    pub fn rules_at(self, k: usize) -> u16
        requires { k < max_named }
        ensures { result ≡ count_at self.entry.numbers.now k }
    {
        self.numbers[words::COUNTS + k]
    }

    // How many modes there are.
    pub fn modes(self) -> usize
        ensures { result ≡ modes_at self.entry.numbers.now }
    {
        usize::from(self.numbers[words::MODES])
    }
}

// Prepares an accepted plan. The arrays are all 0 before; `clauses` has a place for each record or more, and `words` as many and one for each named belt.
pub fn prepare(
    plan: AcceptedPlan,
    words: &mut [u64],
    numbers: &mut [u16; NUMBERS],
    places: &mut [u8; MAX_RECORDS],
    clauses: &mut [u32],
)
    requires words { words.old ≡ replicate (length words.old) 0 }
    requires words_fit { max_named + records plan.bytes.now ≤ length words.old }
    requires numbers { numbers.old ≡ replicate numbers_end 0 }
    requires places { places.old ≡ replicate max_records 0 }
    requires clauses { clauses.old ≡ replicate (length clauses.old) 0 }
    requires clauses_fit { records plan.bytes.now ≤ length clauses.old }
    ensures words { words.new ≡ words_in (length words.old) (plan_of plan.entry.bytes.now) }
    ensures numbers { numbers.new ≡ numbers_of (plan_of plan.entry.bytes.now) }
    ensures places { places.new ≡ named_places plan.entry.bytes.now }
    ensures clauses { clauses.new ≡ clauses_in (length clauses.old) plan.entry.bytes.now }
{
    let named = plan.named_belts();
    named.fill_places(places);
    PlacedPlan { plan, places }.fill_words(words, numbers);
    clauses::decode(plan, places, clauses);
    let counts = counts::rule_counts(plan, places, named.count);
    numbers[words::COUNTS..words::MODES].copy_from_slice(&counts);
    numbers[words::MODES] = plan.modes() as u16;
}
