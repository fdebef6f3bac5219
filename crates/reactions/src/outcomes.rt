// What an action comes to: a transfer, the answer of a call, or a session that stays.
ghost use Rattle.std.specs.Prelude.{◌≡◌, ◌≤◌};
ghost use Rattle.session.specs.Instructions.{send_of};
ghost use Rattle.session.specs.Machine.{sent, refused, broken, context_of, calling, sending, resting, answering, giving};
ghost use Rattle.session.specs.Steps.{op_of};
ghost use Rattle.session.specs.Given.{outcome_of};
ghost use Rattle.reactions.specs.Standing.{SoundIf};
ghost use Rattle.reactions.specs.Reactions.{acts, ending, concluding, acting};

use crate::{Action, Standing};
use programs::{Finished, RangeFailure};
use session::{Answer, Driver, Given, Outcome, Session};

// A call that has made no transfer yet, with its code and its arguments; the code 0 is none.
pub fn calling(driver: Driver, code: u8, a: u32, b: u16) -> Session
    ensures { result ≡ calling driver code a b }
{
    Session {
        driver,
        code,
        a,
        b,
        step: 0,
        idle: 0,
        transfers: 0,
        failed: 0,
        found_budget: 0,
        carried: [0; 24],
    }
}

// All that a call carried becomes zero.
pub fn resting(driver: Driver) -> Session
    ensures { result ≡ resting driver }
{
    calling(driver, 0, 0, 0)
}

// One transfer more, at a step, after so many idle reads there.
fn sending(step: u8, idle: u32, s: Session) -> Session
    requires { s.transfers ≤ 4294967294 }
    ensures { result ≡ sending step idle s }
{
    Session {
        step,
        idle,
        transfers: s.transfers + 1,
        ..s
    }
}

#[tactic(auto, unfolding(session::specs::Given::outcome_of))]
fn send(s: Standing, step: u8, idle: u32) -> Outcome
    ensures { result ≡ outcome_of (sent (send_of (op_of s.at) (context_of s.session)) (sending step idle s.session)) }
{
    Outcome {
        given: Given::Sent(transfers::send_of(s.at, s.session)),
        session: sending(step, idle, s.session),
    }
}

#[tactic(auto, unfolding(session::specs::Given::outcome_of))]
fn answer(x: Answer, driver: Driver, s: Session) -> Outcome
    ensures { result ≡ outcome_of (answering x driver s) }
{
    let session = resting(driver);
    Outcome {
        given: Given::Answered(x, s.transfers),
        session,
    }
}

// An end other than success.
fn give(x: Answer, s: Session) -> Outcome
    ensures { result ≡ outcome_of (giving x s) }
{
    let driver = s.driver;
    answer(x, shapes::held(s.code, driver), s)
}

#[tactic(auto, unfolding(crate::specs::Reactions::ending))]
fn end(how: Result<Finished, RangeFailure>, s: Session) -> Outcome
    ensures { result ≡ outcome_of (ending how s) }
{
    match how {
        Ok(left) => answer(Answer::Done(left.value), left.driver, s),
        Err(RangeFailure(code)) => give(Answer::BusError(code), s),
    }
}

// With no instruction left the call ends.
#[tactic(auto, using(crate::proofs::Meets::ends))]
fn conclude(s: Session) -> Outcome
    ensures { result ≡ outcome_of (concluding s) }
{
    end(programs::final_of(s.code, s), s)
}

// What it asks of the session is in no type here, since an action is made by a definition, which holds no proofs.
#[tactic(auto, unfolding(session::specs::Given::outcome_of, crate::specs::Reactions::acting))]
pub(crate) fn act(action: Action, s: Session) -> Outcome
    requires { SoundIf (acts action) s }
    ensures { result ≡ outcome_of (acting action s) }
{
    match action {
        Action::Send(at, step, idle) => send(Standing { at, session: s }, step, idle),
        Action::End => conclude(s),
        Action::Answer(x) => give(x, s),
        // A refusal keeps the session.
        Action::Refused(x) => Outcome {
            given: Given::Refused(x),
            session: s,
        },
        Action::IllFormed => Outcome {
            given: Given::IllFormed,
            session: s,
        },
    }
}
