// Where a reply leads.
ghost use Rattle.std.specs.Prelude.{◌≡◌};
ghost use Rattle.session.specs.Bus.{idle_on};
ghost use Rattle.session.specs.Steps.{op_of};
ghost use Rattle.reactions.specs.Reactions.{move_of, reported, idling, waiting, decided_by, good_move, failed_move, move_after};

use crate::{Move, Standing};
use checks::wait_limit;
use session::{Answer, Condition, READ_RANGE_MM, ReplyRecord, Session};
use shapes::{Kind, Shape, Verdict};

// A leap leaves out `over` instructions.
#[tactic(auto, unfolding(crate::specs::Reactions::move_of))]
pub fn move_of(next: Verdict, over: u8, step: u16) -> Move
    ensures { result ≡ move_of next over step }
{
    match next {
        Verdict::Onward => Move::To(step as u32),
        Verdict::Leap => Move::To(step as u32 + over as u32),
        Verdict::Stop(x) => Move::Out(x),
    }
}

// If clearing fails after a failed range read, call 6 reports the read's code.
#[tactic(auto, unfolding(crate::specs::Reactions::reported))]
fn reported(code: u8, s: Session) -> u8
    ensures { result ≡ reported code s }
{
    if s.code == READ_RANGE_MM {
        if s.failed == 0 { code } else { s.failed }
    } else {
        code
    }
}

// The read that reaches the limit idle gives Timeout.
#[tactic(auto, unfolding(crate::specs::Reactions::idling))]
fn idling(idle: u32, limit: u32) -> Move
    ensures { result ≡ idling idle limit }
{
    match idle.checked_add(1) {
        Some(reads) if reads < limit => Move::Again(reads),
        _ => Move::Out(Answer::Timeout),
    }
}

#[tactic(auto, unfolding(crate::specs::Reactions::waiting))]
fn waiting(idle: bool, limit: u32, s: Session) -> Move
    ensures { result ≡ waiting idle limit s }
{
    if idle {
        idling(s.idle, limit)
    } else {
        Move::To(s.step as u32 + 1)
    }
}

#[tactic(auto, unfolding(crate::specs::Reactions::decided_by))]
fn decided(s: Standing, over: u8) -> Move
    ensures { result ≡ decided_by (op_of s.at) over s.session }
{
    move_of(
        verdicts::verdict(s.at, s.session),
        over,
        s.session.step as u16 + 1,
    )
}

// Is a reply's first byte one of a wait that goes on?
#[tactic(auto, unfolding(session::specs::Bus::idle_on))]
fn idle_on(condition: Condition, bytes: [u8; 6]) -> bool
    ensures { result ≡ idle_on condition bytes }
{
    match condition {
        Condition::DetectorReady => bytes[0] == 0,
        Condition::StatusReady => bytes[0] % 8 == 0,
        Condition::Started => bytes[0] % 2 != 0,
    }
}

#[tactic(auto, unfolding(crate::specs::Reactions::good_move))]
fn good_move(s: Standing, x: Shape, bytes: [u8; 6]) -> Move
    ensures { result ≡ good_move x.kind (op_of s.at) x s.session bytes }
{
    match x.kind {
        Kind::Write | Kind::Read => decided(s, x.over),
        Kind::Wait(condition) => waiting(
            idle_on(condition, bytes),
            wait_limit(s.session.code, condition),
            s.session,
        ),
        Kind::Range => Move::To(s.session.step as u32 + 1),
    }
}

// After a failed range read the call goes on, over what it leaves out; any other failure ends it.
#[tactic(auto, unfolding(crate::specs::Reactions::failed_move))]
fn failed_move(x: Shape, failure: u8, s: Session) -> Move
    ensures { result ≡ failed_move x.kind x failure s }
{
    match x.kind {
        Kind::Write => Move::Out(Answer::BusError(reported(failure, s))),
        Kind::Range => Move::To(s.step as u32 + 1 + x.over as u32),
        _ => Move::Out(Answer::BusError(failure)),
    }
}

// Where a session that has kept a reply goes.
#[tactic(auto, unfolding(crate::specs::Reactions::move_after))]
pub(crate) fn move_after(s: Standing, x: Shape, reply: ReplyRecord) -> Move
    ensures { result ≡ move_after x.kind (op_of s.at) x s.session reply.failure reply.data }
{
    if reply.failure == 0 {
        good_move(s, x, reply.data)
    } else {
        failed_move(x, reply.failure, s.session)
    }
}
