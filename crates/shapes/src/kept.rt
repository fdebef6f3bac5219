// What is kept of a reply.
ghost use Rattle.std.specs.Prelude.{◌≡◌};
ghost use Rattle.session.specs.Instructions.{bytes_from, put};
ghost use Rattle.shapes.specs.Shapes.{keeps, failure_kept, kept_by};

use crate::values::budget_in;
use crate::{Kind, Shape};
use session::{ReplyRecord, Session, TIMING_SLOT};

// The first n bytes of a reply go to the slots from `slot` on; past the last slot nothing is kept, past the sixth byte there is none.
// Written by index: an iterator over the slots leaves nothing known of those that it passes by.
fn store_bytes(carried: [u8; 24], slot: u16, n: u8, bytes: [u8; 6]) -> [u8; 24]
    ensures { result ≡ put carried slot (bytes_from 0 n bytes) }
{
    let mut next = carried;
    for k in 0..n as usize {
        let i = slot as usize + k;
        if i < 24 {
            next[i] = bytes.get(k).copied().unwrap_or(0);
        }
    }
    next
}

// Is anything kept of the reply to an instruction of a kind?
#[tactic(auto, unfolding(crate::specs::Shapes::keeps))]
fn keeps(kind: Kind) -> bool
    ensures { result ≡ keeps kind }
{
    matches!(kind, Kind::Read | Kind::Range)
}

// The failure of a range read is kept, or that it had none.
#[tactic(auto, unfolding(crate::specs::Shapes::failure_kept))]
fn failure_kept(kind: Kind, failure: u8, failed: u8) -> u8
    ensures { result ≡ failure_kept kind failure failed }
{
    match kind {
        Kind::Range => failure,
        _ => failed,
    }
}

// The session with the bytes of a good reply, the budget where it is found with them, and the failure code of a range read.
#[tactic(auto, unfolding(crate::specs::Shapes::kept_by))]
pub fn kept_by(x: Shape, s: Session, reply: ReplyRecord) -> Session
    ensures { result ≡ kept_by x s reply.failure reply.data }
{
    if !keeps(x.kind) {
        return s;
    }
    let failed = failure_kept(x.kind, reply.failure, s.failed);
    let carried = if reply.failure == 0 {
        store_bytes(s.carried, x.slot, x.reads, reply.data)
    } else {
        s.carried
    };
    let found_budget = if x.finds && reply.failure == 0 {
        budget_in(TIMING_SLOT, carried)
    } else {
        s.found_budget
    };
    Session {
        failed,
        found_budget,
        carried,
        ..s
    }
}
