// What the crate rate answers.
use std::io;
use std::io::Write;

pub fn signal_rate_limit_word(out: &mut impl Write, bits: u32) -> io::Result<()> {
    write!(out, "rate {bits:08X} ")?;
    match rate::signal_rate_limit_word(bits) {
        Some(w) => write!(out, "{w}"),
        None => write!(out, "refused"),
    }
}

pub fn signal_rate_limit_bits(out: &mut impl Write, word: u16) -> io::Result<()> {
    write!(out, "{:08X}", rate::signal_rate_limit_bits(word))
}
