// What the crate clock answers. Where the Rust panics, the place stands for the number.
use clock::{Mclks, Microseconds, Pclks, Place};
use std::fmt::Display;
use std::io;
use std::io::Write;

pub fn value_or_place<N: Display + Drop>(
    out: &mut impl Write,
    answer: Result<N, Place>,
) -> io::Result<()> {
    match answer {
        Ok(n) => write!(out, "{n}"),
        Err(place) => write!(out, "P{place}"),
    }
}

pub fn decode_timeout(out: &mut impl Write, register_value: u16) -> io::Result<()> {
    value_or_place(out, clock::decode_timeout(register_value).map(|m| m.0))
}

pub fn encode_timeout(out: &mut impl Write, timeout: u16) -> io::Result<()> {
    write!(out, "{}", clock::encode_timeout(Mclks(timeout)))
}

pub fn decode_vcsel_period(out: &mut impl Write, register_value: u8) -> io::Result<()> {
    value_or_place(out, clock::decode_vcsel_period(register_value).map(|p| p.0))
}

pub fn encode_vcsel_period(out: &mut impl Write, period: u8) -> io::Result<()> {
    value_or_place(out, clock::encode_vcsel_period(Pclks(period)))
}

pub fn calc_macro_period(out: &mut impl Write, period: u8) -> io::Result<()> {
    write!(out, "{}", clock::calc_macro_period(Pclks(period)).0)
}

pub fn to_microseconds(out: &mut impl Write, timeout: u16, period: u8) -> io::Result<()> {
    write!(out, "timeout_mclks_to_microseconds {timeout} {period} ")?;
    let answer = clock::timeout_mclks_to_microseconds(Mclks(timeout), Pclks(period));
    value_or_place(out, answer.map(|t| t.0))
}

pub fn to_mclks(out: &mut impl Write, timeout: u32, period: u8) -> io::Result<()> {
    write!(out, "timeout_microseconds_to_mclks {timeout} {period} ")?;
    let answer = clock::timeout_microseconds_to_mclks(Microseconds(timeout), Pclks(period));
    value_or_place(out, answer.map(|m| m.0))
}
