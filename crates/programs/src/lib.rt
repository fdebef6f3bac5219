// How a call is entered, and how it ends: what its arguments decide, and what it leaves after its last instruction.
#![tactic(auto, unfolding(shapes::specs::Shapes::settled))]

ghost use Rattle.std.specs.Prelude.{◌≡◌};
ghost use Rattle.session.specs.Bus.{with_driver_address, with_driver_budget};
ghost use Rattle.session.specs.Calls.{brought_up, range_result};
ghost use Rattle.session.specs.Machine.{context_of, held_by};
ghost use Rattle.shapes.specs.Shapes.{settled};
ghost use Rattle.programs.specs.Programs.{finishes, end_of, entry_of, final_of, address_entry, budget_entry, thresholds_entry, rate_entry, thresholds_of};

use ground::word;
use session::{Answer, Driver, Session};
use shapes::{Verdict, address_in, held, low_in};
use threshold::{InvalidArgument, Millimeters, RawThreshold};

// What a call that succeeds leaves: its value and the driver's fields.
#[derive(Clone, Copy)]
pub struct Finished {
    pub value: u32,
    pub driver: Driver,
}

// The bus's code for a range read that failed.
#[derive(Clone, Copy)]
pub struct RangeFailure(pub u8);

// An address outside 0x08..0x77 is refused.
fn address_entry(address: u8) -> Verdict
    ensures { result ≡ settled (address_entry address) }
{
    if (0x08..=0x77).contains(&address) {
        Verdict::Onward
    } else {
        Verdict::Stop(Answer::InvalidAddress(address))
    }
}

fn budget_entry(budget: u32) -> Verdict
    ensures { result ≡ settled (budget_entry budget) }
{
    if budget < 20000 {
        Verdict::Stop(Answer::False)
    } else {
        Verdict::Onward
    }
}

fn thresholds_entry(check: Result<(), InvalidArgument>) -> Verdict
    ensures { result ≡ settled (thresholds_entry check) }
{
    if check.is_err() {
        Verdict::Stop(Answer::InvalidArgument)
    } else {
        Verdict::Onward
    }
}

fn rate_entry(word: Option<u16>) -> Verdict
    ensures { result ≡ settled (rate_entry word) }
{
    if word.is_none() {
        Verdict::Stop(Answer::False)
    } else {
        Verdict::Onward
    }
}

// What the arguments of a call decide; those of most calls decide nothing.
#[tactic(auto, using(crate::proofs::Laws::enters), unfolding(crate::specs::Programs::entry_of, session::specs::Calls::program_of, session::specs::Calls::programs))]
pub fn entry(code: u8, s: Session) -> Verdict
    ensures { result ≡ settled (entry_of code (context_of s)) }
{
    match code {
        3 => address_entry(address_in(s)),
        9 => budget_entry(s.a),
        10 => thresholds_entry(threshold::check_thresholds(
            Millimeters(low_in(s)),
            Millimeters(s.b),
        )),
        14 => rate_entry(rate::signal_rate_limit_word(s.a)),
        _ => Verdict::Onward,
    }
}

// A value, and the fields as they are.
fn finishes(value: u32, s: Session) -> Finished
    ensures { result ≡ finishes value (held_by s.code s.driver) }
{
    Finished {
        value,
        driver: held(s.code, s.driver),
    }
}

// The fields of a sensor that has come up.
fn brought_up(address: u8, s: Session) -> Finished
    ensures { result ≡ finishes 0 (brought_up address s.carried s.found_budget) }
{
    Finished {
        value: 0,
        driver: Driver {
            up: true,
            address,
            stop: s.carried[1],
            budget: s.found_budget,
        },
    }
}

fn address_set(address: u8, s: Session) -> Finished
    ensures { result ≡ finishes 0 (with_driver_address (held_by s.code s.driver) address) }
{
    Finished {
        value: 0,
        driver: Driver {
            address,
            ..held(s.code, s.driver)
        },
    }
}

fn budget_set(s: Session) -> Finished
    ensures { result ≡ finishes 0 (with_driver_budget (held_by s.code s.driver) s.a) }
{
    Finished {
        value: 0,
        driver: Driver {
            budget: s.a,
            ..held(s.code, s.driver)
        },
    }
}

// The range, or the failure of its read.
#[tactic(auto, using(crate::proofs::Laws::read_failure))]
fn range_result(s: Session) -> Result<Finished, RangeFailure>
    ensures { result ≡ end_of (range_result (context_of s)) }
{
    if s.failed == 0 {
        Ok(finishes(word(s.carried[4], s.carried[5]) as u32, s))
    } else {
        Err(RangeFailure(s.failed))
    }
}

// Both thresholds (SCOPE 5.1, call 11): low × 65536 + high.
#[tactic(auto, unfolding(crate::specs::Programs::thresholds_of))]
fn thresholds(low: u16, high: u16) -> u32
    ensures { result ≡ thresholds_of low high }
{
    (threshold::decode_threshold(RawThreshold(low)).0 as u32) * 65536
        + threshold::decode_threshold(RawThreshold(high)).0 as u32
}

#[tactic(auto, unfolding(crate::specs::Programs::thresholds_of, crate::specs::Programs::final_of, session::specs::Calls::program_of, session::specs::Calls::programs))]
fn thresholds_result(s: Session) -> Finished
    ensures { Ok result ≡ end_of (final_of 11 (context_of s)) }
{
    finishes(
        thresholds(
            word(s.carried[8], s.carried[9]),
            word(s.carried[10], s.carried[11]),
        ),
        s,
    )
}

#[tactic(auto, unfolding(crate::specs::Programs::final_of, session::specs::Calls::program_of, session::specs::Calls::programs))]
fn limit_result(s: Session) -> Finished
    ensures { Ok result ≡ end_of (final_of 16 (context_of s)) }
{
    let limit = rate::signal_rate_limit_bits(word(s.carried[8], s.carried[9]));
    finishes(limit, s)
}

// How a call ends after its last instruction. One arm for each call: the proof of each goes by its code.
#[tactic(auto, unfolding(crate::specs::Programs::final_of, session::specs::Calls::program_of, session::specs::Calls::programs))]
pub fn final_of(code: u8, s: Session) -> Result<Finished, RangeFailure>
    ensures { result ≡ end_of (final_of code (context_of s)) }
{
    match code {
        1 => Ok(brought_up(address_in(s), s)),
        2 => Ok(finishes(s.carried[0] as u32, s)),
        3 => Ok(address_set(address_in(s), s)),
        4 => Ok(finishes(0, s)),
        5 => Ok(finishes(0, s)),
        6 => range_result(s),
        7 => range_result(s),
        8 => range_result(s),
        9 => Ok(budget_set(s)),
        10 => Ok(finishes(0, s)),
        11 => Ok(thresholds_result(s)),
        12 => Ok(finishes(0, s)),
        13 => Ok(finishes(0, s)),
        14 => Ok(finishes(0, s)),
        15 => Ok(finishes(s.found_budget, s)),
        16 => Ok(limit_result(s)),
        // No call has another code.
        _ => Err(RangeFailure(0)),
    }
}
