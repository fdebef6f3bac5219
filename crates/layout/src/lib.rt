// A session and an outcome as bytes of a fixed layout, for callers in other languages.
#![tactic(auto)]

mod outcomes;
mod sessions;

pub use outcomes::{NOT_PUT, OUTCOME_SIZE, put_given};
pub use sessions::{SESSION_SIZE, is_session, put_session, session_in, session_of};
