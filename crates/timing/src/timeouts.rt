// The figures of get_sequence_step_timeouts. A figure whose own arithmetic has a place is 0 here;
// nothing uses it, since the place comes first.
ghost use Rattle.std.specs.Prelude.{◌≡◌};
ghost use Rattle.timing.specs.Timeouts.{timeout_clocks, period_clocks, time_in, pre_share, final_clocks};
ghost use Rattle.timing.specs.Timeouts.{step_time, step_clocks, msrc_clocks, msrc_time, pre_time, final_time};

use crate::TimingRegisters;
use crate::registers::sequence_step_enables;
use clock::{Mclks, Microseconds, Pclks, Place, WideMclks};

#[tactic(auto, unfolding(crate::specs::Timeouts::timeout_clocks))]
pub fn timeout_clocks(word: u16) -> Mclks
    ensures { result ≡ timeout_clocks word }
{
    clock::decode_timeout(word).unwrap_or(Mclks(0))
}

#[tactic(auto, unfolding(crate::specs::Timeouts::period_clocks))]
pub fn period_clocks(byte: u8) -> Pclks
    ensures { result ≡ period_clocks byte }
{
    clock::decode_vcsel_period(byte).unwrap_or(Pclks(0))
}

// What so many clocks take, at the period that a register byte stands for.
fn step_time(clocks: Mclks, period: u8) -> Result<Microseconds, Place>
    ensures { result ≡ step_time clocks period }
{
    clock::timeout_mclks_to_microseconds(clocks, period_clocks(period))
}

// And back: how many clocks so much time is.
pub fn step_clocks(time: Microseconds, period: u8) -> Result<WideMclks, Place>
    ensures { result ≡ step_clocks time period }
{
    clock::timeout_microseconds_to_mclks(time, period_clocks(period))
}

// A time, or 0 where its arithmetic has a place: the place comes first, so that nothing uses it.
pub fn time_in(x: Result<Microseconds, Place>) -> Microseconds
    ensures { result ≡ time_in x }
{
    x.unwrap_or(Microseconds(0))
}

// Pre-range's clocks while it is on: what the final range's register counts in.
#[tactic(auto, unfolding(crate::specs::Timeouts::pre_share))]
pub fn pre_share(r: TimingRegisters) -> Mclks
    ensures { result ≡ pre_share r }
{
    if sequence_step_enables(r.sequence).prerange {
        timeout_clocks(r.pretimeout)
    } else {
        Mclks(0)
    }
}

#[tactic(auto, unfolding(crate::specs::Timeouts::final_clocks))]
fn final_clocks(r: TimingRegisters) -> Mclks
    ensures { result ≡ final_clocks r }
{
    Mclks(
        timeout_clocks(r.finaltimeout)
            .0
            .saturating_sub(pre_share(r).0),
    )
}

#[tactic(auto, unfolding(crate::specs::Timeouts::msrc_clocks))]
fn msrc_clocks(r: TimingRegisters) -> Mclks
    ensures { result ≡ msrc_clocks r }
{
    Mclks((r.msrctimeout as u16) + 1)
}

#[tactic(auto, unfolding(crate::specs::Timeouts::msrc_time))]
pub fn msrc_time(r: TimingRegisters) -> Result<Microseconds, Place>
    ensures { result ≡ msrc_time r }
{
    step_time(msrc_clocks(r), r.preperiod)
}

#[tactic(auto, unfolding(crate::specs::Timeouts::pre_time))]
pub fn pre_time(r: TimingRegisters) -> Result<Microseconds, Place>
    ensures { result ≡ pre_time r }
{
    step_time(timeout_clocks(r.pretimeout), r.preperiod)
}

#[tactic(auto, unfolding(crate::specs::Timeouts::final_time))]
pub fn final_time(r: TimingRegisters) -> Result<Microseconds, Place>
    ensures { result ≡ final_time r }
{
    step_time(final_clocks(r), r.finalperiod)
}
