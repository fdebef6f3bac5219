// Answers 15, 13 and 12: is a session well formed, are arguments in range, does a reply have stray bytes?
#![tactic(auto)]

ghost use Rattle.std.specs.Prelude.{◌≡◌, not, ◌==◌, drop};
ghost use Rattle.std.specs.List.{list_any};
ghost use Rattle.session.specs.Bus.{clean_from, wait_limit};
ghost use Rattle.session.specs.Calls.{arguments_ok};
ghost use Rattle.session.specs.Machine.{all_zero, up_wrong, ill_formed};
ghost use Rattle.checks.specs.Sound.{idle_bad, idle_at_step, malformed_at, ill_formed_at, stray_in};

use session::{CallRecord, Condition, ReplyRecord, Rules, Session, WITH_ADDRESS};
use shapes::Kind;

pub fn arguments_ok(rules: Rules, call: CallRecord) -> bool
    ensures { result ≡ arguments_ok rules call.code call.a call.b }
{
    let facts = calls::facts_of(call.code);
    calls::is_call(rules, call.code) && (call.a <= facts.greatest_a && call.b <= facts.greatest_b)
}

// By the call's code too: a call may have limits of its own.
pub fn wait_limit(code: u8, condition: Condition) -> u32
    ensures { result ≡ wait_limit code condition }
{
    match condition {
        Condition::DetectorReady => 65535,
        Condition::StatusReady | Condition::Started => 10000,
    }
}

// Idle reads: below the limit in a wait, none outside.
#[tactic(auto, unfolding(crate::specs::Sound::idle_bad))]
fn idle_bad(code: u8, kind: Kind, idle: u32) -> bool
    ensures { result ≡ idle_bad code kind idle }
{
    match kind {
        Kind::Wait(condition) => wait_limit(code, condition) <= idle,
        Kind::Write | Kind::Read | Kind::Range => idle != 0,
    }
}

// A step that is not of its call, or too many idle reads for an instruction of a kind.
#[tactic(auto, unfolding(crate::specs::Sound::idle_at_step, calls::specs::Calls::facts_of))]
fn idle_at(s: Session, kind: Kind) -> bool
    ensures { result ≡ idle_at_step s.code s.step kind s.idle }
{
    calls::facts_of(s.code).steps <= s.step || idle_bad(s.code, kind, s.idle)
}

// Unlike `not_up` of crate driver it also refuses a bring-up of a sensor that is up.
fn up_wrong(code: u8, up: bool) -> bool
    ensures { result ≡ up_wrong code up }
{
    if code == WITH_ADDRESS { up } else { !up }
}

#[tactic(auto, unfolding(crate::specs::Sound::malformed_at))]
fn malformed_at(rules: Rules, s: Session, kind: Kind) -> bool
    ensures { result ≡ malformed_at rules kind s }
{
    let call = CallRecord {
        code: s.code,
        a: s.a,
        b: s.b,
    };
    !arguments_ok(rules, call)
        || up_wrong(s.code, s.driver.up)
        || idle_at(s, kind)
        || s.transfers == 0
        || calls::ceiling_of(rules, s.code) < s.transfers
}

// Answer 15 (SCOPE 9.2): the session says that a call waits, and is no session that waits in it. Whoever has looked up the instruction that
// it stands at gives its kind.
pub fn ill_formed_at(rules: Rules, s: Session, kind: Kind) -> bool
    ensures { result ≡ ill_formed_at rules kind s }
{
    s.code != 0 && malformed_at(rules, s, kind)
}

#[tactic(auto, using(crate::proofs::Places::ill_is))]
pub fn ill_formed(rules: Rules, s: Session) -> bool
    ensures { result ≡ ill_formed rules s }
{
    ill_formed_at(
        rules,
        s,
        shapes::shape_of(calls::instruction_at(rules, s.code, s.step)).kind,
    )
}

// A byte that is not zero, from the `from`-th on.
fn stray_from(from: u8, bytes: [u8; 6]) -> bool
    ensures { result ≡ list_any (λ b. not (b == 0)) (drop from bytes) }
{
    bytes.iter().skip(from as usize).any(|b| *b != 0)
}

// Which bytes of a reply may be set: those read, and none beside a failure.
fn clean_from(failure: u8, reads: u8) -> u8
    ensures { result ≡ clean_from failure reads }
{
    if failure == 0 { reads } else { 0 }
}

pub fn stray(reads: u8, reply: ReplyRecord) -> bool
    ensures { result ≡ stray_in reads reply.failure reply.data }
{
    stray_from(clean_from(reply.failure, reads), reply.data)
}
