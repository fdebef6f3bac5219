// The beginning of a call.
ghost use Rattle.std.specs.Prelude.{◌≡◌};
ghost use Rattle.session.specs.Calls.{default_address};
ghost use Rattle.session.specs.Machine.{begun, not_up, begin_def, other_def};
ghost use Rattle.session.specs.Given.{outcome_of};
ghost use Rattle.reactions.specs.Reactions.{Reaches};
ghost use Rattle.driver.specs.Replies.{launching};

use crate::replies::stays;
use checks::{arguments_ok, ill_formed};
use reactions::{Decision, Move, Standing, calling, carry_out, move_of};
use session::{Answer, CallRecord, Instruction, Outcome, Rules, Session, WITH_ADDRESS};

// What the arguments decide: an answer with no transfer made, or the first transfer. A leap leaves out all instructions.
#[tactic(auto, unfolding(calls::specs::Calls::facts_of))]
fn launch(rules: Rules, s: Standing) -> Decision
    ensures { Reaches result (launching rules s.session) }
{
    let code = s.session.code;
    let next = move_of(
        programs::entry(code, s.session),
        calls::facts_of(code).steps,
        0,
    );
    Decision {
        rules,
        next,
        at: Instruction::Nowhere,
        session: s.session,
    }
}

// A bring-up leaves none of the fields.
fn begun(s: Session, call: CallRecord) -> Session
    ensures { result ≡ begun s call.code call.a call.b }
{
    calling(shapes::held(call.code, s.driver), call.code, call.a, call.b)
}

// A call that needs a sensor that is up, and has none.
fn not_up(code: u8, up: bool) -> bool
    ensures { result ≡ not_up code up }
{
    if code == WITH_ADDRESS { false } else { !up }
}

#[tactic(auto, unfolding(reactions::specs::Standing::leads, reactions::specs::Reactions::action_of, reactions::specs::Reactions::acting, session::specs::Machine::begin_def, crate::specs::Replies::launching))]
pub fn call_decision(rules: Rules, s: Session, call: CallRecord) -> Decision
    ensures { Reaches result (begin_def rules s call.code call.a call.b) }
{
    if ill_formed(rules, s) {
        stays(rules, Move::IllFormed, s)
    } else if !arguments_ok(rules, call) {
        stays(rules, Move::Refused(Answer::IllFormedRecord), s)
    } else if s.code != 0 {
        stays(rules, Move::Refused(Answer::CallWaits), s)
    } else if not_up(call.code, s.driver.up) {
        stays(rules, Move::Refused(Answer::NotUp), s)
    } else {
        launch(
            rules,
            Standing {
                at: Instruction::Nowhere,
                session: begun(s, call),
            },
        )
    }
}

pub fn begin(rules: Rules, s: Session, call: CallRecord) -> Outcome
    ensures { result ≡ outcome_of (begin_def rules s call.code call.a call.b) }
{
    carry_out(call_decision(rules, s, call))
}

// lib.rs: DEFAULT_ADDRESS, at which the sensor stands after power is switched on.
pub const DEFAULT_ADDRESS: u8 = 0x29;

// lib.rs: new, which is `with_address` at that address.
pub fn begin_new(rules: Rules, s: Session) -> Outcome
    ensures { result ≡ outcome_of (begin_def rules s 1 default_address 0) }
{
    begin(
        rules,
        s,
        CallRecord {
            code: WITH_ADDRESS,
            a: u32::from(DEFAULT_ADDRESS),
            b: 0,
        },
    )
}

// A record that is neither a call nor a reply.
#[tactic(auto, unfolding(reactions::specs::Standing::leads, reactions::specs::Reactions::action_of, reactions::specs::Reactions::acting, session::specs::Machine::other_def))]
pub fn other_decision(rules: Rules, s: Session) -> Decision
    ensures { Reaches result (other_def rules s) }
{
    if ill_formed(rules, s) {
        stays(rules, Move::IllFormed, s)
    } else {
        stays(rules, Move::Refused(Answer::IllFormedRecord), s)
    }
}
