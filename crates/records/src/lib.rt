// Records of eight bytes, and the run over a list of them.
#![tactic(auto)]

mod one;
mod runs;

pub use one::{record_at, step};
pub use runs::{run, run_fresh};
use session::{Answer, CallRecord, ReplyRecord, Session};

// What eight bytes are.
#[derive(Clone, Copy)]
pub enum Record {
    Call(CallRecord),
    Reply(ReplyRecord),
    Other,
}

// What the records of a list came to: accepted calls, the answers these got, accepted replies, transfers, refusals.
#[derive(Clone, Copy, Default)]
pub struct Counts {
    pub calls: u64,
    pub answers: u64,
    pub replies: u64,
    pub transfers: u64,
    pub refused: u64,
}

// The run of a list: its answer, the session at its end, and the five counts.
#[derive(Clone, Copy)]
pub struct ListRun {
    pub answer: Answer,
    pub session: Session,
    pub counts: Counts,
}
