// The bytes of a session. A new field is appended, and no field moves, so that whoever reads one by its bytes goes on doing so.
ghost use Rattle.std.specs.Prelude.{◌≡◌, ◌+◌, ◌≤◌, true, false, MatchOption};
ghost use Rattle.layout.specs.Layout.{long_at, session_bytes, is_session, session_of, session_in, session_size, placed};

use session::{Driver, Session};

pub const SESSION_SIZE: usize = 52;

const UP: usize = 0;

const ADDRESS: usize = 1;

const STOP: usize = 2;

const BUDGET: usize = 3;

const CODE: usize = 7;

const A: usize = 8;

const B: usize = 12;

const STEP: usize = 14;

const IDLE: usize = 15;

const TRANSFERS: usize = 19;

const FAILED: usize = 23;

const FOUND_BUDGET: usize = 24;

const CARRIED: usize = 28;

fn long_at(bytes: &[u8; SESSION_SIZE], at: usize) -> u32
    requires { at + 4 ≤ session_size }
    ensures { result ≡ long_at at bytes.now }
{
    u32::from_le_bytes([bytes[at], bytes[at + 1], bytes[at + 2], bytes[at + 3]])
}

#[tactic(auto, using(crate::proofs::Images::carried_last), unfolding(crate::specs::Layout::session_of))]
fn read(bytes: &[u8; SESSION_SIZE]) -> Session
    ensures { result ≡ session_of bytes.now }
{
    let mut carried = [0; 24];
    carried.copy_from_slice(&bytes[CARRIED..]);
    Session {
        driver: Driver {
            up: bytes[UP] == 1,
            address: bytes[ADDRESS],
            stop: bytes[STOP],
            budget: long_at(bytes, BUDGET),
        },
        code: bytes[CODE],
        a: long_at(bytes, A),
        b: u16::from_le_bytes([bytes[B], bytes[B + 1]]),
        step: bytes[STEP],
        idle: long_at(bytes, IDLE),
        transfers: long_at(bytes, TRANSFERS),
        failed: bytes[FAILED],
        found_budget: long_at(bytes, FOUND_BUDGET),
        carried,
    }
}

// The session that these bytes are, if they are one.
#[tactic(auto, unfolding(crate::specs::Layout::is_session))]
pub fn session_of(lent: &[u8]) -> Option<Session>
    ensures { MatchOption result (is_session lent.now ≡ false) (λ s. (is_session lent.now ≡ true) × (s ≡ session_of lent.now)) }
{
    let bytes = lent.as_array()?;
    if bytes[UP] > 1 {
        return None;
    }
    Some(read(bytes))
}

pub fn is_session(lent: &[u8]) -> bool
    ensures { result ≡ is_session lent.now }
{
    session_of(lent).is_some()
}

// Bytes that are no session are read as a fresh one.
#[tactic(auto, unfolding(crate::specs::Layout::session_in))]
pub fn session_in(lent: &[u8]) -> Session
    ensures { result ≡ session_in lent.now }
{
    session_of(lent).unwrap_or(driver::fresh())
}

#[tactic(auto, using(crate::proofs::Images::long_image, crate::proofs::Images::word_image, crate::proofs::Images::as_number, crate::proofs::Images::whole), unfolding(crate::specs::Layout::session_bytes))]
fn bytes_of(s: Session) -> [u8; SESSION_SIZE]
    ensures { result ≡ session_bytes s }
{
    let d = s.driver;
    let mut bytes = [0; SESSION_SIZE];
    bytes[UP] = d.up as u8;
    bytes[ADDRESS] = d.address;
    bytes[STOP] = d.stop;
    bytes[BUDGET..BUDGET + 4].copy_from_slice(&d.budget.to_le_bytes());
    bytes[CODE] = s.code;
    bytes[A..A + 4].copy_from_slice(&s.a.to_le_bytes());
    bytes[B..B + 2].copy_from_slice(&s.b.to_le_bytes());
    bytes[STEP] = s.step;
    bytes[IDLE..IDLE + 4].copy_from_slice(&s.idle.to_le_bytes());
    bytes[TRANSFERS..TRANSFERS + 4].copy_from_slice(&s.transfers.to_le_bytes());
    bytes[FAILED] = s.failed;
    bytes[FOUND_BUDGET..FOUND_BUDGET + 4].copy_from_slice(&s.found_budget.to_le_bytes());
    bytes[CARRIED..].copy_from_slice(&s.carried);
    bytes
}

// A session goes into as many bytes as it has; no other number of bytes is written. What C lends has any length.
pub fn put_session(lent: &mut [u8], s: Session)
    ensures { lent.new ≡ placed session_size lent.old (session_bytes s) }
{
    if lent.len() == SESSION_SIZE {
        lent.copy_from_slice(&bytes_of(s));
    }
}
