// What the crates timing and budget answer.
use crate::clocks;
use budget::{DssTerm, NoWord};
use clock::Microseconds;
use std::io;
use std::io::Write;
use timing::TimingRegisters;

fn word_or(out: &mut impl Write, answer: Result<u16, NoWord>) -> io::Result<()> {
    match answer {
        Ok(w) => write!(out, "{w}"),
        Err(NoWord::NoTime) => write!(out, "N"),
        Err(NoWord::Panic(p)) => write!(out, "P{p}"),
    }
}

// The reply that brought the first place: how many replies have one.
fn first_place(out: &mut impl Write, r: TimingRegisters) -> io::Result<()> {
    for known in 1..=6 {
        if let Some(p) = timing::first_place(r, known) {
            return write!(out, "{known}:P{p}");
        }
    }
    write!(out, "-")
}

// By index: a pattern would name each byte only to print it once, in the same order.
pub fn measurement_timing_budget(out: &mut impl Write, b: [u8; 8], budget: u32) -> io::Result<()> {
    write!(
        out,
        "budget {:02X} {:02X}{:02X} {:02X}{:02X} {:02X} {:02X} {:02X} {budget} ",
        b[0], b[1], b[2], b[3], b[4], b[5], b[6], b[7]
    )?;
    let r = timing::timing_registers(b);
    clocks::value_or_place(out, budget::measurement_timing_budget(r).map(|t| t.0))?;
    write!(out, " ")?;
    word_or(
        out,
        budget::set_budget(r, Microseconds(budget), DssTerm::Once),
    )?;
    write!(out, " ")?;
    first_place(out, r)
}
