// What a good reply to each instruction decides.
#![tactic(auto, unfolding(shapes::specs::Shapes::settled))]

ghost use Rattle.std.specs.Prelude.{◌≡◌};
ghost use Rattle.session.specs.Machine.{context_of};
ghost use Rattle.session.specs.Steps.{op_of, by_place, by_word, no_time};
ghost use Rattle.shapes.specs.Shapes.{verdict_of, settled};
ghost use Rattle.verdicts.specs.Verdicts.{identified, prepared, ready, steps_written, timed_verdict};

use budget::{DssTerm, NoWord};
use clock::Place;
use session::{Answer, Instruction, Session, Setting, TIMING_SLOT};
use shapes::{Verdict, oscillator_word, timed_period, timing_in, word_to_set};

// The identity has to be 0xEE.
fn identified(identity: u8) -> Verdict
    ensures { result ≡ settled (identified identity) }
{
    if identity == 0xEE {
        Verdict::Onward
    } else {
        Verdict::Stop(Answer::InvalidDevice(identity))
    }
}

// Without a period the two timed steps are left out. 0 is no period: an argument of a record, so a number.
fn prepared(period: u32) -> Verdict
    ensures { result ≡ settled (prepared period) }
{
    if period == 0 {
        Verdict::Leap
    } else {
        Verdict::Onward
    }
}

// A period that does not fit 32 bits is place 1.
#[tactic(auto, unfolding(crate::specs::Verdicts::timed_verdict))]
fn timed(period: u64) -> Verdict
    ensures { result ≡ timed_verdict period }
{
    if period > u32::MAX as u64 {
        Verdict::Stop(Answer::Panic(u8::from(Place::TimedPeriod)))
    } else {
        Verdict::Onward
    }
}

#[tactic(auto, using(crate::proofs::Laws::timed_is))]
fn oscillated(s: Session) -> Verdict
    ensures { result ≡ settled (verdict_of (op_of Instruction.ReadOscillator) (context_of s)) }
{
    timed(timed_period(s.a, oscillator_word(s)))
}

fn ready(status: u8) -> Verdict
    ensures { result ≡ settled (ready status) }
{
    if status % 8 == 0 {
        Verdict::Stop(Answer::WouldBlock)
    } else {
        Verdict::Onward
    }
}

fn by_place(place: Option<Place>) -> Verdict
    ensures { result ≡ settled (by_place place) }
{
    match place {
        None => Verdict::Onward,
        Some(p) => Verdict::Stop(Answer::Panic(u8::from(p))),
    }
}

fn timing_read(n: u8, slot: u8, s: Session) -> Verdict
    ensures { result ≡ settled (verdict_of (op_of (Instruction.ReadTiming n slot)) (context_of s)) }
{
    let carried = s.carried;
    by_place(timing::first_place(timing_in(slot, carried), n))
}

// A bring-up leaves out the write where no time is left for the final range, call 9 is answered 1.
fn no_time(setting: Setting) -> Verdict
    ensures { result ≡ settled (no_time setting) }
{
    match setting {
        Setting::Found => Verdict::Leap,
        Setting::Asked => Verdict::Stop(Answer::False),
    }
}

fn by_word(setting: Setting, word: Result<u16, NoWord>) -> Verdict
    ensures { result ≡ settled (by_word (no_time setting) word) }
{
    match word {
        Ok(_) => Verdict::Onward,
        Err(NoWord::NoTime) => no_time(setting),
        Err(NoWord::Panic(p)) => Verdict::Stop(Answer::Panic(u8::from(p))),
    }
}

fn last_read(slot: u8, setting: Setting, dss: DssTerm, s: Session) -> Verdict
    ensures { result ≡ settled (verdict_of (op_of (Instruction.ReadLast slot setting dss)) (context_of s)) }
{
    by_word(setting, word_to_set(slot, setting, dss, s))
}

// A budget that is too short is not set.
fn steps_written(found_budget: u32) -> Verdict
    ensures { result ≡ settled (steps_written found_budget) }
{
    if found_budget < 20000 {
        Verdict::Leap
    } else {
        Verdict::Onward
    }
}

// A match, one arm for each instruction; arms that answer alike are one.
pub fn verdict(i: Instruction, s: Session) -> Verdict
    ensures { result ≡ settled (verdict_of (op_of i) (context_of s)) }
{
    match i {
        Instruction::Identify => identified(s.carried[0]),
        Instruction::Prepared => prepared(s.a),
        Instruction::ReadOscillator => oscillated(s),
        Instruction::ReadStatus => ready(s.carried[2]),
        Instruction::ReadTiming(n, slot) => timing_read(n, slot, s),
        Instruction::FindBudget => timing_read(6, TIMING_SLOT, s),
        Instruction::ReadLast(slot, setting, dss) => last_read(slot, setting, dss, s),
        Instruction::WriteSteps => steps_written(s.found_budget),
        Instruction::Nowhere
        | Instruction::Write(_, _)
        | Instruction::WriteOr(_, _)
        | Instruction::WriteAnd(_, _)
        | Instruction::Read(_, _)
        | Instruction::ReadWord(_, _)
        | Instruction::ReadMap
        | Instruction::WriteMap
        | Instruction::WriteQuarter
        | Instruction::WriteRate
        | Instruction::WriteStop
        | Instruction::WritePeriod
        | Instruction::WriteMode
        | Instruction::WriteAddress
        | Instruction::WriteLow
        | Instruction::WriteHigh
        | Instruction::WriteFunction
        | Instruction::WritePolarity
        | Instruction::WriteWord(_, _, _)
        | Instruction::Await(_)
        | Instruction::ReadRange(_, _, _, _) => Verdict::Onward,
    }
}
