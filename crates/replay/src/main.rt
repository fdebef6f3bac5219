// Writes what the Rust driver answers (oracle/README.md): rows for every argument of the small functions, then a line
// for each record of the input.
#![tactic(auto)]

mod budgets;
mod clocks;
mod rates;
mod rows;
mod spads;
mod thresholds;

use rows::rows;
use std::io;
use std::io::{ErrorKind, Read, Write};

// A record is its kind and 12 bytes; an enum of kinds would be matched a second time. Numbers stand high byte first; a clock count has 16
// bits, so that its first two bytes are 0.
fn line(out: &mut impl Write, record: [u8; 13]) -> io::Result<()> {
    match record {
        [0, _, _, a, b, period, ..] => {
            clocks::to_microseconds(out, u16::from_be_bytes([a, b]), period)?
        }
        [1, a, b, c, d, period, ..] => {
            clocks::to_mclks(out, u32::from_be_bytes([a, b, c, d]), period)?
        }
        [2, a, b, c, d, e, f, count, flag, ..] => {
            spads::select_spads(out, [a, b, c, d, e, f], count, flag)?
        }
        [3, a, b, c, d, ..] => {
            rates::signal_rate_limit_word(out, u32::from_be_bytes([a, b, c, d]))?
        }
        [4, a, b, c, d, ..] => thresholds::check_thresholds(
            out,
            u16::from_be_bytes([a, b]),
            u16::from_be_bytes([c, d]),
        )?,
        [5, a, b, c, d, e, f, g, h, i, j, k, l] => budgets::measurement_timing_budget(
            out,
            [a, b, c, d, e, f, g, h],
            u32::from_be_bytes([i, j, k, l]),
        )?,
        _ => write!(out, "unknown kind")?,
    }
    writeln!(out)
}

// Answers whether there was a whole record.
fn replay_record(reader: &mut impl Read, out: &mut impl Write) -> io::Result<bool> {
    let mut record = [0u8; 13];
    match reader.read_exact(&mut record) {
        Ok(()) => {
            line(out, record)?;
            Ok(true)
        }
        Err(e) if e.kind() == ErrorKind::UnexpectedEof => Ok(false),
        Err(e) => Err(e),
    }
}

// Nothing says that the input ends, so the loop counts its turns.
fn replay_records(reader: &mut impl Read, out: &mut impl Write) -> io::Result<()> {
    for _ in 0..u64::MAX {
        if !replay_record(reader, out)? {
            break;
        }
    }
    Ok(())
}

fn main(rt: HostRuntime) -> io::Result<()> {
    let mut reader = rt.reader();
    let mut out = io::writer(&rt);
    rows(
        &mut out,
        "decode_timeout",
        0..=u16::MAX,
        clocks::decode_timeout,
    )?;
    rows(
        &mut out,
        "encode_timeout",
        0..=u16::MAX,
        clocks::encode_timeout,
    )?;
    rows(
        &mut out,
        "decode_vcsel_period",
        0..=u8::MAX,
        clocks::decode_vcsel_period,
    )?;
    rows(
        &mut out,
        "encode_vcsel_period",
        0..=u8::MAX,
        clocks::encode_vcsel_period,
    )?;
    rows(
        &mut out,
        "calc_macro_period",
        0..=u8::MAX,
        clocks::calc_macro_period,
    )?;
    rows(
        &mut out,
        "get_signal_rate_limit",
        0..=u16::MAX,
        rates::signal_rate_limit_bits,
    )?;
    rows(
        &mut out,
        "set_interrupt_thresholds_mm",
        0..=u16::MAX,
        thresholds::encode_threshold,
    )?;
    rows(
        &mut out,
        "get_interrupt_thresholds_mm",
        0..=u16::MAX,
        thresholds::decode_threshold,
    )?;
    replay_records(&mut reader, &mut out)
}
