// Call 15's value and call 9's answer: the first place of the replies, or what the sums give.
ghost use Rattle.std.specs.Prelude.{◌≡◌};
ghost use Rattle.budget.specs.Budget.{measurement_timing_budget, with_pre, word_of_sum, final_range_word};
ghost use Rattle.budget.specs.Budget.{set_budget};

use crate::sums::{budget_sum, used_sum};
use crate::{DssTerm, NoWord};
use clock::{Mclks, Microseconds, Place, WideMclks};
use timing::{TimingRegisters, first_place, pre_share};

// Call 15: the first place, or the measurement timing budget that the replies amount to.
#[tactic(auto, unfolding(crate::specs::Budget::measurement_timing_budget))]
pub fn measurement_timing_budget(r: TimingRegisters) -> Result<Microseconds, Place>
    ensures { result ≡ measurement_timing_budget r }
{
    match first_place(r, 6) {
        Some(place) => Err(place),
        None => Ok(budget_sum(r)),
    }
}

// A test and no `try_from`, which would not say the limit of the place.
#[tactic(auto, unfolding(crate::specs::Budget::word_of_sum))]
fn word_of_sum(n: u32) -> Result<u16, NoWord>
    ensures { result ≡ word_of_sum n }
{
    if 65535 < n {
        Err(NoWord::Panic(Place::FinalTimeout))
    } else {
        Ok(clock::encode_timeout(Mclks(n as u16)))
    }
}

// The clocks are cut to 16 bits before pre-range's are added.
fn with_pre(clocks: WideMclks, pre: Mclks) -> u32
    ensures { result ≡ with_pre clocks pre }
{
    clock::cut_mclks(clocks).0 as u32 + pre.0 as u32
}

// Call 9 after its test of 20,000: the first place, no time left for the final range, or the word
// for 0x71.
#[tactic(auto, unfolding(crate::specs::Budget::word_within, crate::specs::Budget::final_range_word))]
pub fn final_range_word(
    r: TimingRegisters,
    budget: Microseconds,
    dss: DssTerm,
) -> Result<u16, NoWord>
    ensures { result ≡ final_range_word r budget dss }
{
    if let Some(place) = first_place(r, 6) {
        return Err(NoWord::Panic(place));
    }
    let used = used_sum(r, dss);
    if budget.0 < used.0 {
        return Err(NoWord::NoTime);
    }
    let left = Microseconds(budget.0 - used.0);
    let clocks = timing::step_clocks(left, r.finalperiod)?;
    word_of_sum(with_pre(clocks, pre_share(r)))
}

// Call 9 whole: a budget below 20,000 is refused before any reply is looked at.
#[tactic(auto, unfolding(crate::specs::Budget::set_budget))]
pub fn set_budget(r: TimingRegisters, budget: Microseconds, dss: DssTerm) -> Result<u16, NoWord>
    ensures { result ≡ set_budget r budget dss }
{
    if budget.0 < 20000 {
        Err(NoWord::NoTime)
    } else {
        final_range_word(r, budget, dss)
    }
}
