// Reads records from standard input into a fresh session, and writes the driver's fields after each.
// A program of its own, since each has a name of its own.
#![tactic(auto)]

ghost use Rattle.blocks.specs.Input.{rollfields_text};
ghost use Rattle.console.specs.Streams.{PrintsInput};

use blocks::Fields;
use console::Failure;
use std::env::{Env, FillError};
use std::io;
use std::io::{Read, Write};
use std::process::ExitCode;
use std::time::Clock;

#[tactic(auto, unfolding(blocks::specs::Input::rollfields_text))]
fn print<R: Read, W: Write, C: Clock>(
    reader: &mut R,
    writer: &mut W,
    clock: &C,
) -> Result<(), Failure>
    ensures { PrintsInput rollfields_text (R.remaining reader.old) (R.remaining reader.new) (W.contents writer.old) (W.contents writer.new) result }
{
    console::run::<Fields, R, W, C>(reader, writer, clock)
}

// No contract says what standard input gives or what standard output takes. Where standard error takes nothing, the status is all that is left.
fn main(rt: HostRuntime) -> ExitCode {
    // Only whether there is an argument is asked, and not which.
    if !matches!(rt.arg(1, &mut [0u8; 1]), Err(FillError::NotPresent)) {
        let _ = eprintln!(rt; "usage: rollfields < RECORDS > LINES");
        return ExitCode::from(2);
    }
    match print(&mut rt.reader(), &mut io::writer(&rt), &rt) {
        Ok(()) => ExitCode::SUCCESS,
        Err(e) => {
            let _ = eprintln!(rt; "rollfields: {e}");
            ExitCode::FAILURE
        }
    }
}
