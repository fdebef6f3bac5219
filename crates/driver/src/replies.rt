// A reply of the bus, and the transfer that a session has out.
ghost use Rattle.std.specs.Prelude.{◌≡◌, false};
ghost use Rattle.session.specs.Machine.{reply_def};
ghost use Rattle.session.specs.declared.Instruction.{Instruction};
ghost use Rattle.session.specs.Given.{outcome_of};
ghost use Rattle.reactions.specs.Standing.{leads};
ghost use Rattle.reactions.specs.Reactions.{action_of, acting, Reaches};
ghost use Rattle.driver.specs.Replies.{outstanding_of};

use checks::{ill_formed, ill_formed_at, stray};
use reactions::{Decision, Move, Standing, carry_out, react};
use session::{Answer, Instruction, Outcome, ReplyRecord, Rules, Session, Transfer};

// A refusal keeps the session.
#[tactic(auto, unfolding(reactions::specs::Reactions::reached))]
pub(crate) fn stays(rules: Rules, next: Move, s: Session) -> Decision
    requires { leads next ≡ false }
    ensures { Reaches result (acting (action_of rules next Instruction.Nowhere s) s) }
{
    Decision {
        rules,
        next,
        at: Instruction::Nowhere,
        session: s,
    }
}

// The instruction is looked up once, for the tests of 15 and 12 and for what the reply does.
#[tactic(auto, unfolding(reactions::specs::Standing::leads, reactions::specs::Reactions::action_of, reactions::specs::Reactions::acting, session::specs::Machine::reply_def))]
pub fn reply_decision(rules: Rules, s: Session, reply: ReplyRecord) -> Decision
    ensures { Reaches result (reply_def rules s reply.failure reply.data) }
{
    let at = calls::instruction_at(rules, s.code, s.step);
    let shape = shapes::shape_of(at);
    if ill_formed_at(rules, s, shape.kind) {
        stays(rules, Move::IllFormed, s)
    } else if s.code == 0 {
        stays(rules, Move::Refused(Answer::NoCallWaits), s)
    } else if stray(shape.reads, reply) {
        stays(rules, Move::Refused(Answer::StrayByte), s)
    } else {
        react(rules, Standing { at, session: s }, shape, reply)
    }
}

pub fn reply(rules: Rules, s: Session, reply: ReplyRecord) -> Outcome
    ensures { result ≡ outcome_of (reply_def rules s reply.failure reply.data) }
{
    carry_out(reply_decision(rules, s, reply))
}

// The transfer that a waiting session has out; none where no call waits or the session is ill-formed.
pub fn outstanding(rules: Rules, s: Session) -> Option<Transfer>
    ensures { result ≡ outstanding_of rules s }
{
    if ill_formed(rules, s) || s.code == 0 {
        return None;
    }
    let at = calls::instruction_at(rules, s.code, s.step);
    Some(transfers::send_of(at, s))
}
