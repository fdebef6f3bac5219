// What the six budget replies amount to: the measurement timing budget of call 15, and the final
// range word that call 9 writes.
#![tactic(auto)]

mod answers;
mod sums;

ghost use Rattle.std.specs.Prelude.{◌≡◌};
ghost use Rattle.budget.specs.declared.NoWord.TheVariants.{Panic};

pub use answers::{final_range_word, measurement_timing_budget, set_budget};
use clock::Place;

// How often the DSS overhead is counted: twice by call 15, and where a budget is set as the rules have it (SCOPE 5.4).
#[derive(Clone, Copy, Debug, PartialEq, Eq)]
pub enum DssTerm {
    Twice,
    Once,
}

// Why call 9 has no word to write: a budget below 20,000 or no time left for the final range (both
// answer 1), or a place.
#[derive(Clone, Copy, Debug, PartialEq, Eq)]
pub enum NoWord {
    NoTime,
    Panic(Place),
}

impl From<Place> for NoWord {
    ghost from_gives = { λ place no. no ≡ Panic place };

    fn from(place: Place) -> NoWord {
        NoWord::Panic(place)
    }
}
