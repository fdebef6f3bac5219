// What a move comes to.
ghost use Rattle.std.specs.Prelude.{◌≡◌};
ghost use Rattle.reactions.specs.Reactions.{arrival_at, action_of};

use crate::{Action, Decision, Move};
use session::{Rules, Session};

// The instruction at a step of the session's call; past the last, the end. The casts fit by the test, which is made anyway.
#[tactic(auto, unfolding(crate::specs::Reactions::arrival_at, calls::specs::Calls::facts_of))]
fn arrival_at(rules: Rules, step: u32, s: Session) -> Action
    ensures { result ≡ arrival_at rules step s }
{
    if step < calls::facts_of(s.code).steps as u32 {
        Action::Send(
            calls::instruction_at(rules, s.code, step as u8),
            step as u8,
            0,
        )
    } else {
        Action::End
    }
}

// A match, one arm for each move.
#[tactic(auto, unfolding(crate::specs::Reactions::action_of))]
pub(crate) fn action_of(c: Decision) -> Action
    ensures { result ≡ action_of c.rules c.next c.at c.session }
{
    match c.next {
        Move::To(step) => arrival_at(c.rules, step, c.session),
        Move::Again(idle) => Action::Send(c.at, c.session.step, idle),
        Move::Out(x) => Action::Answer(x),
        Move::Refused(x) => Action::Refused(x),
        Move::IllFormed => Action::IllFormed,
    }
}
