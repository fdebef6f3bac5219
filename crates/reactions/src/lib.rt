// Where a record takes a session, in four steps: what is kept of a reply, the move that it makes, the action that this comes to, and the outcome.
#![tactic(auto)]

mod actions;
mod moves;
mod outcomes;
mod standing;

ghost use Rattle.std.specs.Prelude.{◌≡◌};
ghost use Rattle.session.specs.Calls.{program_of};
ghost use Rattle.session.specs.Machine.{react, to_reply};
ghost use Rattle.session.specs.Steps.{op_of};
ghost use Rattle.shapes.specs.Shapes.{shape_of};
ghost use Rattle.session.specs.Given.{outcome_of};
ghost use Rattle.reactions.specs.Reactions.{reached, Reaches};

use crate::actions::action_of;
use crate::moves::move_after;
use crate::outcomes::act;
pub use moves::move_of;
pub use outcomes::{calling, resting};
use session::{Answer, Instruction, Outcome, ReplyRecord, Rules};
use shapes::{Shape, kept_by};
pub use standing::{Decision, Standing};

// Where a record leads: on to a step, to the same read once more after so many idle ones, out with an answer, or nowhere, since it is refused or the
// session is ill-formed. None of the five is an absence or an error, so that no Option or Result says them.
#[derive(Clone, Copy)]
pub enum Move {
    To(u32),
    Again(u32),
    Out(Answer),
    Refused(Answer),
    IllFormed,
}

// What that comes to: an instruction is sent at a step after so many idle reads there, the call ends after its last
// instruction or with an answer, or the session stays. A case for each move that is left.
#[derive(Clone, Copy)]
pub enum Action {
    Send(Instruction, u8, u32),
    End,
    Answer(Answer),
    Refused(Answer),
    IllFormed,
}

// What a decision comes to.
#[tactic(auto, unfolding(crate::specs::Reactions::reached))]
pub fn carry_out(c: Decision) -> Outcome
    ensures { result ≡ outcome_of (reached c) }
{
    act(action_of(c), c.session)
}

// The decision of a session that waits for the reply to an instruction of a shape. The shape is looked up once, for speed, and is in no type:
// what is sent afterwards has none.
pub fn react(rules: Rules, s: Standing, shape: Shape, reply: ReplyRecord) -> Decision
    requires { shape ≡ shape_of (op_of s.at) }
    ensures { Reaches result (react (op_of s.at) (program_of rules s.session.code) s.session (to_reply reply.failure reply.data)) }
{
    let kept = Standing {
        at: s.at,
        session: kept_by(shape, s.session, reply),
    };
    let next = move_after(kept, shape, reply);
    Decision {
        rules,
        next,
        at: kept.at,
        session: kept.session,
    }
}
