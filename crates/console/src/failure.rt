// What ended a program before its input did, and the errors that only want another try.
ghost use Rattle.std.specs.Prelude.{◌≡◌};
ghost use Rattle.std.specs.IoError.{error_kind};
ghost use Rattle.console.specs.Failures.{wants_another_try};

use std::io::{Error, ErrorKind};
use std::time::{Clock, Duration};
use std::{fmt, thread};

#[derive(Clone, Copy)]
pub enum Failure {
    Read(Error),
    Write(Error),
}

impl fmt::Display for Failure {
    fn fmt<W: fmt::Write>(&self, f: &mut fmt::Formatter<W>) -> fmt::Result {
        match self {
            Failure::Read(e) => write!(f, "cannot read: {e}"),
            Failure::Write(e) => write!(f, "cannot write: {e}"),
        }
    }
}

// A signal came before any byte did; or a descriptor that does not block has none yet, or takes none yet: then it is left alone for a
// thousandth of a second.
pub(crate) fn wants_another_try<C: Clock>(clock: &C, e: &Error) -> bool
    ensures { result ≡ wants_another_try (error_kind e.now) }
{
    match e.kind() {
        ErrorKind::Interrupted => true,
        ErrorKind::WouldBlock => {
            thread::sleep(clock, Duration::from_millis(1));
            true
        }
        _ => false,
    }
}

// No read or write of the standard library promises that it succeeds after so many tries.
pub(crate) fn too_many_turns() -> Error
    ensures { error_kind result ≡ ErrorKind.TimedOut }
{
    Error::new(ErrorKind::TimedOut, "gave up after 2^64 turns")
}
