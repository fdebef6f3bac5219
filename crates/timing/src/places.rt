// The first place of the replies that are known, in the Rust's order.
ghost use Rattle.std.specs.Prelude.{◌≡◌};
ghost use Rattle.timing.specs.Places.{timeout_place, period_place, less_place, msrc_place, entry, entries_of, after, first_place};

use crate::registers::sequence_step_enables;
use crate::timeouts::{final_time, msrc_time, pre_time, timeout_clocks};
use crate::{Entry, TimingRegisters};
use clock::Place;

#[tactic(auto, unfolding(crate::specs::Places::timeout_place))]
fn timeout_place(word: u16) -> Option<Place>
    ensures { result ≡ timeout_place word }
{
    clock::decode_timeout(word).err()
}

#[tactic(auto, unfolding(crate::specs::Places::period_place))]
fn period_place(byte: u8) -> Option<Place>
    ensures { result ≡ period_place byte }
{
    clock::decode_vcsel_period(byte).err()
}

#[tactic(auto, unfolding(crate::specs::Places::less_place))]
fn less_place(r: TimingRegisters) -> Option<Place>
    ensures { result ≡ less_place r }
{
    let on = sequence_step_enables(r.sequence).prerange;
    let whole = timeout_clocks(r.finaltimeout).0;
    let pre = timeout_clocks(r.pretimeout).0;
    (on && whole < pre).then_some(Place::FinalBelowPre)
}

fn msrc_place(byte: u8) -> Option<Place>
    ensures { result ≡ msrc_place byte }
{
    (254 < byte).then_some(Place::MsrcTimeout)
}

// A place counts once the replies that it is made of are known.
fn after(n: u8, known: u8, place: Option<Place>) -> Option<Place>
    ensures { result ≡ after n known place }
{
    if n <= known { place } else { None }
}

fn entry(needs: u8, place: Option<Place>) -> Entry
    ensures { result ≡ entry needs place }
{
    Entry { needs, place }
}

#[tactic(auto, unfolding(crate::specs::Places::entries_of))]
fn entries(r: TimingRegisters) -> [Entry; 9]
    ensures { result ≡ entries_of r }
{
    [
        entry(2, timeout_place(r.pretimeout)),
        entry(3, timeout_place(r.finaltimeout)),
        entry(3, less_place(r)),
        entry(4, period_place(r.preperiod)),
        entry(5, msrc_place(r.msrctimeout)),
        entry(6, period_place(r.finalperiod)),
        entry(6, msrc_time(r).err()),
        entry(6, pre_time(r).err()),
        entry(6, final_time(r).err()),
    ]
}

// The first place once the first `known` of the six replies are known.
#[tactic(auto, unfolding(crate::specs::Places::first_place, crate::specs::Places::first_match))]
pub fn first_place(r: TimingRegisters, known: u8) -> Option<Place>
    ensures { result ≡ first_place r known }
{
    for entry in entries(r) {
        if let Some(place) = after(entry.needs, known, entry.place) {
            return Some(place);
        }
    }
    None
}
