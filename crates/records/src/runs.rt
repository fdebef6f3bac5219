// The list run.
ghost use Rattle.std.specs.Prelude.{◌≡◌, ◌<◌, ◌^◌, length};
ghost use Rattle.session.specs.History.{run_def};
ghost use Rattle.records.specs.Runs.{Room, added_to, advance, starting, going, gone, list_run_of, RunsFresh};

use crate::one::step;
use crate::{Counts, ListRun};
use session::{Answer, Given, Rules, Session};

// Where a run is: the session, and the counts so far.
#[derive(Clone, Copy)]
struct Progress {
    session: Session,
    counts: Counts,
}

// The counts after a record of a kind, which is its first byte: so the definitions count them.
#[tactic(auto, using(crate::proofs::Turns::at_most_one), unfolding(crate::specs::Runs::one_if, crate::specs::Runs::added_to))]
fn added_to(counts: Counts, kind: u8, given: Given) -> Option<Counts>
    requires { Room counts (2 ^ 63) }
    ensures { result ≡ added_to counts kind given }
{
    match given {
        Given::Sent(_) => Some(Counts {
            calls: counts.calls + u64::from(kind == 1),
            replies: counts.replies + u64::from(kind == 2),
            transfers: counts.transfers + 1,
            ..counts
        }),
        Given::Answered(_, _) => Some(Counts {
            calls: counts.calls + u64::from(kind == 1),
            answers: counts.answers + 1,
            replies: counts.replies + u64::from(kind == 2),
            ..counts
        }),
        Given::Refused(_) => Some(Counts {
            refused: counts.refused + 1,
            ..counts
        }),
        Given::IllFormed => None,
    }
}

// One record more; a session that was ill-formed ends the run.
#[tactic(auto, unfolding(crate::specs::Runs::advance))]
fn advance(rules: Rules, p: Progress, record: [u8; 8]) -> Option<Progress>
    requires { Room p.counts (2 ^ 63) }
    ensures { result ≡ advance rules p «record» }
{
    let o = step(rules, p.session, record);
    let counts = added_to(p.counts, record[0], o.given)?;
    Some(Progress {
        session: o.session,
        counts,
    })
}

fn go(rules: Rules, s: Session, records: &[[u8; 8]]) -> Option<Progress>
    requires { length records.now < 2 ^ 63 }
    ensures { result ≡ going rules (starting s) records.now }
{
    let mut p = Progress {
        session: s,
        counts: Counts::default(),
    };
    for r in records {
        p = advance(rules, p, *r)?;
    }
    Some(p)
}

// Answers 14 and 15 give back the session as it was given, with all counts 0.
#[tactic(auto, unfolding(crate::specs::Runs::gone))]
fn gone(rules: Rules, s: Session, bytes: &[u8]) -> Result<Progress, Answer>
    ensures { result ≡ gone rules s bytes.now }
{
    let (records, spare) = bytes.as_chunks::<8>();
    if !spare.is_empty() {
        return Err(Answer::SpareBytes);
    }
    if checks::ill_formed(rules, s) {
        return Err(Answer::IllFormedSession);
    }
    go(rules, s, records).ok_or(Answer::IllFormedSession)
}

// The run of a list of records from any session.
pub fn run(rules: Rules, s: Session, bytes: &[u8]) -> ListRun
    ensures value { result ≡ list_run_of (run_def rules s bytes.now) }
    ensures bytes_kept { bytes.exit.now ≡ bytes.entry.now }
{
    match gone(rules, s, bytes) {
        Ok(p) => ListRun {
            answer: Answer::Done(0),
            session: p.session,
            counts: p.counts,
        },
        Err(answer) => ListRun {
            answer,
            session: s,
            counts: Counts::default(),
        },
    }
}

// The run of a list from a fresh session: demand 3 holds of it.
pub fn run_fresh(rules: Rules, bytes: &[u8]) -> ListRun
    ensures runs_fresh { RunsFresh rules bytes.now result }
    ensures bytes_kept { bytes.exit.now ≡ bytes.entry.now }
{
    run(rules, driver::fresh(), bytes)
}
