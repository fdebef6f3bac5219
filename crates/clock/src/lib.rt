// The source's clock arithmetic. Each clock unit is a type of its own, so that a count of one
// clock cannot be handed over as another. Where the Rust panics, the answer is the place.
#![tactic(auto)]

ghost use Rattle.std.specs.Prelude.{◌≡◌, ◌+◌, ◌%◌, ◌^◌, Some, decimal};
ghost use Rattle.clock.specs.Places.{place_number};
ghost use Rattle.clock.specs.Clock.{shifted, decoded_timeout, halved, encoded_timeout};
ghost use Rattle.clock.specs.Clock.{decoded_vcsel_period, encoded_vcsel_period, macro_period};
ghost use Rattle.clock.specs.Clock.{mclks_to_microseconds, microseconds_to_mclks, cut_mclks};

use std::fmt;

// Macro clocks.
#[derive(Clone, Copy)]
pub struct Mclks(pub u16);

// Macro clocks as a conversion gives them, before they are cut to 16 bits: a type of its own, so that the cut cannot be forgotten.
#[derive(Clone, Copy)]
pub struct WideMclks(pub u32);

// Pulse clocks.
#[derive(Clone, Copy)]
pub struct Pclks(pub u8);

#[derive(Clone, Copy)]
pub struct Microseconds(pub u32);

#[derive(Clone, Copy)]
pub struct Nanoseconds(pub u32);

// A place of the arithmetic at which the Rust panics, by its number.
#[derive(Clone, Copy, Debug, PartialEq, Eq)]
pub enum Place {
    // A period times the oscillator's word.
    TimedPeriod = 1,
    // The shift of a timeout.
    TimeoutShift = 2,
    // The final range's clocks less pre-range's.
    FinalBelowPre = 3,
    // A period from its register, and back.
    VcselPeriod = 4,
    // The register of the MSRC timeout and 1.
    MsrcTimeout = 5,
    ToMicroseconds = 6,
    ToMclks = 7,
    // A division by no macro period.
    NoMacroPeriod = 8,
    // The final range's clocks and pre-range's.
    FinalTimeout = 9,
}

impl From<Place> for u8 {
    ghost from_gives = { λ place n. n ≡ place_number place };

    fn from(place: Place) -> u8 {
        place as u8
    }
}

impl fmt::Display for Place {
    ghost output = { λ place. Some (decimal (place_number place)) };

    fn fmt<W: fmt::Write>(&self, f: &mut fmt::Formatter<W>) -> fmt::Result {
        write!(f, "{}", u8::from(*self))
    }
}

// x doubled `times` times in 16 bits: a bit that leaves the top is dropped.
#[tactic(auto, using(crate::proofs::Doubling::doubling_shifts), unfolding(crate::specs::Clock::doubled_in))]
fn doubled(x: u16, times: u16) -> u16
    ensures { result ≡ shifted 16 x times }
{
    let mut v = x;
    for _ in 0..times {
        v = v.wrapping_add(v);
    }
    v
}

// (low byte << high byte) + 1.
#[tactic(auto, unfolding(crate::specs::Clock::decoded_timeout))]
pub fn decode_timeout(register_value: u16) -> Result<Mclks, Place>
    ensures { result ≡ decoded_timeout register_value }
{
    let [times, low] = register_value.to_be_bytes();
    if 16 <= times {
        Err(Place::TimeoutShift)
    } else {
        Ok(Mclks(doubled(low as u16, times as u16) + 1))
    }
}

// n halved until it is at most 255: 256 for each halving, plus what is left. It calls itself on the half, and counts nothing.
fn halve(n: u16) -> u16
    ensures { result ≡ halved n }
{
    if n <= 255 { n } else { 256 + halve(n / 2) }
}

#[tactic(auto, unfolding(crate::specs::Clock::encoded_timeout))]
pub fn encode_timeout(timeout: Mclks) -> u16
    ensures { result ≡ encoded_timeout timeout }
{
    let t = timeout.0;
    if t == 0 { 0 } else { halve(t - 1) }
}

// ((register value + 1) << 1) in a byte.
#[tactic(auto, unfolding(crate::specs::Clock::decoded_vcsel_period))]
pub fn decode_vcsel_period(register_value: u8) -> Result<Pclks, Place>
    ensures { result ≡ decoded_vcsel_period register_value }
{
    if register_value == 255 {
        Err(Place::VcselPeriod)
    } else {
        let p = register_value + 1;
        Ok(Pclks(p.wrapping_add(p)))
    }
}

// (period >> 1) - 1.
#[tactic(auto, unfolding(crate::specs::Clock::encoded_vcsel_period))]
pub fn encode_vcsel_period(period: Pclks) -> Result<u8, Place>
    ensures { result ≡ encoded_vcsel_period period }
{
    let p = period.0;
    if p <= 1 {
        Err(Place::VcselPeriod)
    } else {
        Ok(p / 2 - 1)
    }
}

pub fn calc_macro_period(period: Pclks) -> Nanoseconds
    ensures { result ≡ macro_period period }
{
    Nanoseconds((2304 * (period.0 as u32) * 1655 + 500) / 1000)
}

// The sum is made in 64 bits, where it always fits, and held against 32: the test is of the sum, which is not what is cast in the end.
#[tactic(auto, unfolding(crate::specs::Clock::microseconds_of))]
pub fn timeout_mclks_to_microseconds(timeout: Mclks, period: Pclks) -> Result<Microseconds, Place>
    ensures { result ≡ mclks_to_microseconds timeout period }
{
    let ns = calc_macro_period(period).0 as u64;
    let sum = (timeout.0 as u64) * ns + ns / 2;
    if 4294967295 < sum {
        Err(Place::ToMicroseconds)
    } else {
        Ok(Microseconds((sum / 1000) as u32))
    }
}

// As above, the sum is held against 32 bits before it is divided and cast.
#[tactic(auto, unfolding(crate::specs::Clock::mclks_of))]
pub fn timeout_microseconds_to_mclks(
    timeout: Microseconds,
    period: Pclks,
) -> Result<WideMclks, Place>
    ensures { result ≡ microseconds_to_mclks timeout period }
{
    let ns = calc_macro_period(period).0 as u64;
    let scaled = (timeout.0 as u64) * 1000 + ns / 2;
    if 4294967295 < scaled {
        return Err(Place::ToMclks);
    }
    if ns == 0 {
        return Err(Place::NoMacroPeriod);
    }
    Ok(WideMclks((scaled / ns) as u32))
}

// Clocks cut to 16 bits: by the remainder, since a cast has to fit.
pub fn cut_mclks(clocks: WideMclks) -> Mclks
    ensures { result ≡ cut_mclks clocks }
{
    Mclks((clocks.0 % 65536) as u16)
}
