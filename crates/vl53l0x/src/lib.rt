// The driver for callers in other languages: a session, a record and an outcome are lent bytes (crate layout), and nothing is kept here.
#![tactic(auto)]

ghost use Rattle.std.specs.Prelude.{◌≡◌};
ghost use Rattle.session.specs.Machine.{fresh_session};
ghost use Rattle.layout.specs.Layout.{session_size, outcome_size, placed, placed_number, session_bytes, given_bytes};
ghost use Rattle.vl53l0x.specs.Exports.{step_outcome, step_session, fresh_number, outstanding_in};

use layout::{NOT_PUT, OUTCOME_SIZE, SESSION_SIZE};
use session::{Answer, Given, Rules};

// What C lends has any length, so that each function tests it, and says so by a number of its own.

// A fresh session. Returned is 0, or 15 where there are not as many bytes as a session has.
#[unsafe(no_mangle)]
pub extern "C" fn vl53l0x_fresh(session: &mut [u8]) -> u8
    ensures session_after { session.new ≡ placed session_size session.old (session_bytes fresh_session) }
    ensures value { result ≡ fresh_number session.old }
{
    if session.len() == SESSION_SIZE {
        layout::put_session(session, driver::fresh());
        0
    } else {
        15
    }
}

// One record in, one outcome out. Returned is the outcome's number, or 254 where there are not as many bytes as an outcome has.
#[tactic(auto, using(layout::proofs::Images::sized), unfolding(crate::specs::Exports::step_outcome, crate::specs::Exports::step_session, crate::specs::Exports::met, layout::specs::Layout::given_bytes))]
#[unsafe(no_mangle)]
pub extern "C" fn vl53l0x_step(session: &mut [u8], record: &[u8], outcome: &mut [u8]) -> u8
    ensures session_after { session.new ≡ step_session session.old «record».now outcome.old }
    ensures outcome_after { outcome.new ≡ placed outcome_size outcome.old (step_outcome session.old «record».now) }
    ensures value { result ≡ placed_number outcome.old (step_outcome session.old «record».now) }
    ensures record_kept { «record».exit.now ≡ «record».entry.now }
{
    if outcome.len() != OUTCOME_SIZE {
        return NOT_PUT;
    }
    let Some(eight) = record.as_array() else {
        return layout::put_given(outcome, Given::Refused(Answer::SpareBytes));
    };
    let Some(s) = layout::session_of(session) else {
        return layout::put_given(outcome, Given::IllFormed);
    };
    let o = records::step(Rules::Current, s, *eight);
    layout::put_session(session, o.session);
    layout::put_given(outcome, o.given)
}

#[tactic(auto, unfolding(crate::specs::Exports::outstanding_in, crate::specs::Exports::outstanding_bytes, driver::specs::Replies::outstanding_of, layout::specs::Layout::given_bytes))]
fn outstanding_in(session: &[u8]) -> Given
    ensures { given_bytes result ≡ outstanding_in session.now }
{
    let Some(s) = layout::session_of(session) else {
        return Given::IllFormed;
    };
    match driver::outstanding(Rules::Current, s) {
        Some(t) => Given::Sent(t),
        None if s.code == 0 => Given::Refused(Answer::NoCallWaits),
        None => Given::IllFormed,
    }
}

// The transfer that a waiting session has out. Returned is 255, 11 where no call waits, 15 where the session is ill-formed, or 254 where there
// are not as many bytes as an outcome has.
#[unsafe(no_mangle)]
pub extern "C" fn vl53l0x_outstanding(session: &[u8], outcome: &mut [u8]) -> u8
    ensures outcome_after { outcome.new ≡ placed outcome_size outcome.old (outstanding_in session.now) }
    ensures value { result ≡ placed_number outcome.old (outstanding_in session.now) }
    ensures session_kept { session.exit.now ≡ session.entry.now }
{
    layout::put_given(outcome, outstanding_in(session))
}
