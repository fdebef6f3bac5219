// Reads records from standard input into a fresh session, and writes what each gives: a transfer or an answer.
// A program of its own, since each has a name of its own.
#![tactic(auto)]

ghost use Rattle.blocks.specs.Input.{rolltrace_text};
ghost use Rattle.console.specs.Streams.{PrintsInput};

use blocks::Outcomes;
use console::Failure;
use std::env::{Env, FillError};
use std::io;
use std::io::{Read, Write};
use std::process::ExitCode;
use std::time::Clock;

#[tactic(auto, unfolding(blocks::specs::Input::rolltrace_text))]
fn print<R: Read, W: Write, C: Clock>(
    reader: &mut R,
    writer: &mut W,
    clock: &C,
) -> Result<(), Failure>
    ensures { PrintsInput rolltrace_text (R.remaining reader.old) (R.remaining reader.new) (W.contents writer.old) (W.contents writer.new) result }
{
    console::run::<Outcomes, R, W, C>(reader, writer, clock)
}

// No contract says what standard input gives or what standard output takes. Where standard error takes nothing, the status is all that is left.
fn main(rt: HostRuntime) -> ExitCode {
    // Only whether there is an argument is asked, and not which.
    if !matches!(rt.arg(1, &mut [0u8; 1]), Err(FillError::NotPresent)) {
        let _ = eprintln!(rt; "usage: rolltrace < RECORDS > LINES");
        return ExitCode::from(2);
    }
    match print(&mut rt.reader(), &mut io::writer(&rt), &rt) {
        Ok(()) => ExitCode::SUCCESS,
        Err(e) => {
            let _ = eprintln!(rt; "rolltrace: {e}");
            ExitCode::FAILURE
        }
    }
}
