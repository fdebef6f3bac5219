// Records from a reader, lines to a writer, block by block.
#![tactic(auto)]

mod failure;

ghost use Rattle.std.specs.Prelude.{◌≡◌, ℕ, ◌+◌, ◌*◌, ◌%◌, ◌<◌, ◌≤◌, IfOk, OnErr, length, take, drop};
ghost use Rattle.std.specs.Io.KnownBytes.{Keeps, Consumes, IsAtEnd};
ghost use Rattle.session.specs.Machine.{fresh_session};
ghost use Rattle.session.specs.Records.{records_of};
ghost use Rattle.blocks.specs.Blocks.{lines_of, session_past, text_room};
ghost use Rattle.blocks.specs.Input.{text_from};
ghost use Rattle.console.specs.Streams.{Writes, Fills, PrintsBlock, PrintsInput};

pub use crate::failure::Failure;
use crate::failure::{too_many_turns, wants_another_try};
use blocks::Show;
use lines::LINE_ROOM;
use session::Session;
use std::io;
use std::io::{Error, ErrorKind, Read, Write};
use std::time::Clock;

// One read into the block from `at` on.
fn read_at<R: Read>(reader: &mut R, block: &mut [u8], at: usize) -> io::Result<usize>
    requires { at < length block.old }
    ensures size { length block.new ≡ length block.old }
    ensures front { take at block.new ≡ take at block.old }
    ensures fits { IfOk result (λ n. at + n ≤ length block.new) }
    ensures ok { IfOk result (λ n. Consumes (R.remaining reader.old) (R.remaining reader.new) (take n (drop at block.new))) }
    ensures end { IfOk result (λ n. n ≡ 0 → IsAtEnd (R.remaining reader.new)) }
    ensures err { OnErr result (Keeps (R.remaining reader.old) (R.remaining reader.new)) }
{
    reader.read(&mut block[at..])
}

// How many bytes of a block were filled, and how that ended. A pipe gives its bytes in pieces of any length: only the end of the input, or
// a failure, leaves a block short. Nothing says that a try more is asked for only so often, so the loop counts its turns; the count of bytes
// is where the next ones go.
fn fill<R: Read, C: Clock>(
    reader: &mut R,
    block: &mut [u8],
    clock: &C,
) -> (usize, Result<(), Failure>)
    ensures { Fills (R.remaining reader.old) (R.remaining reader.new) block.old block.new result.0 result.1 }
{
    let mut count = 0;
    for _ in 0..u64::MAX {
        if count >= block.len() {
            return (count, Ok(()));
        }
        match read_at(reader, block, count) {
            Ok(0) => return (count, Ok(())),
            Ok(n) => count += n,
            Err(e) => {
                if !wants_another_try(clock, &e) {
                    return (count, Err(Failure::Read(e)));
                }
            }
        }
    }
    (count, Err(Failure::Read(too_many_turns())))
}

// std's `write_all` does not say what was written where it fails.
fn put<W: Write, C: Clock>(writer: &mut W, text: &[u8], clock: &C) -> Result<(), Failure>
    ensures { Writes text.now (W.contents writer.old) (W.contents writer.new) result }
{
    let mut done = 0;
    for _ in 0..u64::MAX {
        if done >= text.len() {
            return Ok(());
        }
        match writer.write(&text[done..]) {
            Ok(0) => return Err(Failure::Write(Error::new(
                ErrorKind::WriteZero,
                "failed to write whole buffer",
            ))),
            Ok(n) => done += n,
            Err(e) => {
                if !wants_another_try(clock, &e) {
                    return Err(Failure::Write(e));
                }
            }
        }
    }
    Err(Failure::Write(too_many_turns()))
}

// The lines of a block's whole records, and the session after them.
fn put_lines<S: Show, W: Write, C: Clock>(
    writer: &mut W,
    s: Session,
    bytes: &[u8],
    text: &mut [u8],
    clock: &C,
) -> Result<Session, Failure>
    requires { text_room (length bytes.now) ≤ length text.old }
    ensures size { length text.new ≡ length text.old }
    ensures lines { Writes (lines_of S.line_of s (records_of bytes.now)) (W.contents writer.old) (W.contents writer.new) result }
    ensures session { IfOk result (λ t. t ≡ session_past s (records_of bytes.now)) }
{
    let p = blocks::print::<S>(s, bytes, text);
    put(writer, &text[..p.count], clock)?;
    Ok(p.session)
}

// The session after a block, if there may be another block: a short one is the last. Where reading fails, the records that came before
// are printed first.
fn print_block<S: Show, R: Read, W: Write, C: Clock>(
    reader: &mut R,
    writer: &mut W,
    s: Session,
    block: &mut [u8],
    text: &mut [u8],
    clock: &C,
) -> Result<Option<Session>, Failure>
    requires eights { length block.old % 8 ≡ 0 }
    requires some { 0 < length block.old }
    requires room { text_room (length block.old) ≤ length text.old }
    ensures block { length block.new ≡ length block.old }
    ensures text { length text.new ≡ length text.old }
    ensures prints { PrintsBlock S.line_of S.spare s (R.remaining reader.old) (R.remaining reader.new) (W.contents writer.old) (W.contents writer.new) result }
{
    let (count, ended) = fill(reader, block, clock);
    let next = put_lines::<S, W, C>(writer, s, &block[..count], text, clock)?;
    ended?;
    if count == block.len() {
        return Ok(Some(next));
    }
    put(writer, blocks::after_lines::<S>(&block[..count]), clock)?;
    Ok(None)
}

// Nothing says that the input ends, so the loop counts its turns.
fn print_blocks<S: Show, R: Read, W: Write, C: Clock>(
    reader: &mut R,
    writer: &mut W,
    block: &mut [u8],
    text: &mut [u8],
    clock: &C,
) -> Result<(), Failure>
    requires eights { length block.old % 8 ≡ 0 }
    requires some { 0 < length block.old }
    requires room { text_room (length block.old) ≤ length text.old }
    ensures { PrintsInput (text_from S.line_of S.spare fresh_session) (R.remaining reader.old) (R.remaining reader.new) (W.contents writer.old) (W.contents writer.new) result }
{
    let mut s = driver::fresh();
    for _ in 0..u64::MAX {
        match print_block::<S, R, W, C>(reader, writer, s, block, text, clock)? {
            Some(next) => s = next,
            None => return Ok(()),
        }
    }
    Err(Failure::Read(too_many_turns()))
}

// Records are read block by block, and the text has room for the lines of a block. Arrays of one size, since memory is fixed.
const BLOCK_SIZE: usize = 16384;

const TEXT_SIZE: usize = BLOCK_SIZE / 8 * LINE_ROOM;

pub fn run<S: Show, R: Read, W: Write, C: Clock>(
    reader: &mut R,
    writer: &mut W,
    clock: &C,
) -> Result<(), Failure>
    ensures { PrintsInput (text_from S.line_of S.spare fresh_session) (R.remaining reader.old) (R.remaining reader.new) (W.contents writer.old) (W.contents writer.new) result }
{
    let mut block = [0u8; BLOCK_SIZE];
    let mut text = [0u8; TEXT_SIZE];
    print_blocks::<S, R, W, C>(reader, writer, &mut block, &mut text, clock)
}
