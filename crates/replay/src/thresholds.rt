// What the crate threshold answers; R for limits that are refused.
use std::io;
use std::io::Write;
use threshold::{InvalidArgument, Millimeters, RawThreshold};

// The word of a limit that is both low and high.
pub fn encode_threshold(out: &mut impl Write, mm: u16) -> io::Result<()> {
    match threshold::check_thresholds(Millimeters(mm), Millimeters(mm)) {
        Ok(()) => write!(out, "{}", threshold::encode_threshold(Millimeters(mm)).0),
        Err(InvalidArgument) => write!(out, "R"),
    }
}

pub fn decode_threshold(out: &mut impl Write, raw: u16) -> io::Result<()> {
    write!(out, "{}", threshold::decode_threshold(RawThreshold(raw)).0)
}

pub fn check_thresholds(out: &mut impl Write, low: u16, high: u16) -> io::Result<()> {
    write!(out, "window {low} {high} ")?;
    match threshold::check_thresholds(Millimeters(low), Millimeters(high)) {
        Ok(()) => write!(
            out,
            "{} {}",
            threshold::encode_threshold(Millimeters(low)).0,
            threshold::encode_threshold(Millimeters(high)).0
        ),
        Err(InvalidArgument) => write!(out, "R"),
    }
}
