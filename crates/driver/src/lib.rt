// A session by value: a call is begun and yields one transfer, and each reply of the bus yields the next transfer or the answer.
#![tactic(auto)]

mod begins;
mod replies;

ghost use Rattle.std.specs.Prelude.{◌≡◌};
ghost use Rattle.session.specs.Machine.{fresh_session};

pub use begins::{DEFAULT_ADDRESS, begin, begin_new, call_decision, other_decision};
pub use replies::{outstanding, reply, reply_decision};
use session::{Driver, Session};

pub fn fresh() -> Session
    ensures { result ≡ fresh_session }
{
    reactions::resting(Driver::default())
}
