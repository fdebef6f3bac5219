// The sums of call 15 and of call 9. They are made in 64 bits, where they always fit; that they fit
// 32 is proved.
ghost use Rattle.std.specs.Prelude.{◌≡◌, ◌≤◌, ◌+◌, ◌*◌};
ghost use Rattle.budget.specs.Sums.{dss_of, dss_or_msrc, step_sum, budget_sum, used_sum};
ghost use Rattle.timing.specs.Registers.{when_on};

use crate::DssTerm;
use clock::Microseconds;
use timing::{
    SeqStepEnables, TimingRegisters, final_time, msrc_time, pre_time, sequence_step_enables,
    time_in,
};

fn when_on(on: bool, n: u64) -> u64
    ensures value { result ≡ when_on on n }
    ensures upper_bound { result ≤ n }
{
    if on { n } else { 0 }
}

fn dss_of(dss: DssTerm, msrc: u32) -> u64
    ensures { result ≡ dss_of dss msrc }
{
    let m = msrc as u64;
    match dss {
        DssTerm::Twice => 2 * (m + 690),
        DssTerm::Once => 2 * m + 690,
    }
}

// What DSS counts, or MSRC where DSS is off.
#[tactic(auto, unfolding(crate::specs::Sums::dss_or_msrc))]
fn dss_or_msrc(on: SeqStepEnables, dss: DssTerm, msrc: u32) -> u64
    ensures value { result ≡ dss_or_msrc on dss msrc }
    ensures upper_bound { result ≤ 2 * msrc + 1380 }
{
    if on.dss {
        dss_of(dss, msrc)
    } else {
        when_on(on.msrc, msrc as u64 + 660)
    }
}

#[tactic(auto, unfolding(crate::specs::Sums::step_sum))]
fn step_sum(on: SeqStepEnables, start: u32, dss: DssTerm, msrc: u32, pre: u32, last: u32) -> u64
    ensures { result ≡ step_sum on start dss msrc pre last }
{
    let tcc = when_on(on.tcc, msrc as u64 + 590);
    let part = dss_or_msrc(on, dss, msrc);
    let before = when_on(on.prerange, pre as u64 + 660);
    let after = when_on(on.finalrange, last as u64);
    start as u64 + 960 + tcc + part + before + after
}

// Call 15's sum and call 9's: two formulas of the source, and not one with a constant.
#[tactic(auto, unfolding(crate::specs::Sums::budget_sum))]
pub fn budget_sum(r: TimingRegisters) -> Microseconds
    ensures { result ≡ budget_sum r }
{
    let on = sequence_step_enables(r.sequence);
    let msrc = time_in(msrc_time(r)).0;
    let pre = time_in(pre_time(r)).0;
    let last = time_in(final_time(r)).0;
    let sum = step_sum(on, 1910, DssTerm::Twice, msrc, pre, last + 550);
    Microseconds(sum as u32)
}

#[tactic(auto, unfolding(crate::specs::Sums::used_sum))]
pub fn used_sum(r: TimingRegisters, dss: DssTerm) -> Microseconds
    ensures { result ≡ used_sum r dss }
{
    let on = sequence_step_enables(r.sequence);
    let msrc = time_in(msrc_time(r)).0;
    let pre = time_in(pre_time(r)).0;
    let sum = step_sum(on, 1320, dss, msrc, pre, 550);
    Microseconds(sum as u32)
}
