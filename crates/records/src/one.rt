// One record meets one session.
ghost use Rattle.std.specs.Prelude.{◌≡◌, ◌+◌, get_or};
ghost use Rattle.session.specs.History.{step_def};
ghost use Rattle.session.specs.Given.{outcome_of};
ghost use Rattle.reactions.specs.Reactions.{Reaches};
ghost use Rattle.records.specs.Records.{record_in, record_at, shown, meant};

use crate::Record;
use reactions::Decision;
use session::{CallRecord, Outcome, ReplyRecord, Rules, Session};
use std::array;

// SCOPE 7.1: a call is 0x01, its code, A and B; a reply is 0x02, its failure code and six data bytes.
impl From<[u8; 8]> for Record {
    ghost from_gives = { λ bytes r. r ≡ shown (record_in bytes) };

    fn from(bytes: [u8; 8]) -> Record {
        let [kind, first, b2, b3, b4, b5, b6, b7] = bytes;
        if kind == 1 {
            Record::Call(CallRecord {
                code: first,
                a: u32::from_be_bytes([b2, b3, b4, b5]),
                b: u16::from_be_bytes([b6, b7]),
            })
        } else if kind == 2 {
            Record::Reply(ReplyRecord {
                failure: first,
                data: [b2, b3, b4, b5, b6, b7],
            })
        } else {
            Record::Other
        }
    }
}

// The byte k places after a place; past the end, zero.
fn byte_after(bytes: &[u8], at: usize, k: usize) -> u8
    ensures { result ≡ get_or bytes.now (at + k) 0 }
{
    at.checked_add(k)
        .and_then(|i| bytes.get(i).copied())
        .unwrap_or(0)
}

// Eight bytes of a list, from a place on as a reader has it.
pub fn record_at(bytes: &[u8], at: usize) -> [u8; 8]
    ensures { result ≡ record_at bytes.now at }
{
    array::from_fn(|k| byte_after(bytes, at, k))
}

// A match, one arm for each case with what it holds.
#[tactic(auto, unfolding(session::specs::History::step_def, crate::specs::Records::meant))]
fn decision_of(rules: Rules, s: Session, met: Record) -> Decision
    ensures { Reaches result (step_def rules s (meant met)) }
{
    match met {
        Record::Call(call) => driver::call_decision(rules, s, call),
        Record::Reply(reply) => driver::reply_decision(rules, s, reply),
        Record::Other => driver::other_decision(rules, s),
    }
}

// The tests of a record return a decision, and only here it is carried out, for all three kinds of record. What is called from one place is compiled
// into its caller, so that a whole step becomes one piece of code.
pub fn step(rules: Rules, s: Session, record: [u8; 8]) -> Outcome
    ensures { result ≡ outcome_of (step_def rules s (record_in «record»)) }
{
    reactions::carry_out(decision_of(rules, s, Record::from(record)))
}
