// The bench values that are run (SCOPE 11.2): the numbers of calls 14, 16, 10 and 11. `stdout` has what that section says.
#![tactic(auto)]

use std::io;
use threshold::{InvalidArgument, Millimeters};

fn rate_line(rt: &impl Print, name: &str, bits: u32) -> io::Result<()> {
    match rate::signal_rate_limit_word(bits) {
        Some(word) => println!(rt; "{name} writes {word}"),
        None => println!(rt; "{name} refused"),
    }
}

fn limit_line(rt: &impl Print, word: u16) -> io::Result<()> {
    let bits = rate::signal_rate_limit_bits(word);
    match rate::signal_rate_limit_word(bits) {
        Some(same) => println!(rt; "{word} reads {bits:08X}, which writes {same}"),
        None => println!(rt; "{word} reads {bits:08X}, out of range"),
    }
}

fn threshold_line(rt: &impl Print, mm: u16) -> io::Result<()> {
    match threshold::check_thresholds(Millimeters(0), Millimeters(mm)) {
        Ok(()) => println!(rt; "{mm} accepted"),
        Err(InvalidArgument) => println!(rt; "{mm} refused"),
    }
}

fn read_back_line(rt: &impl Print, mm: u16) -> io::Result<()> {
    let raw = threshold::encode_threshold(Millimeters(mm));
    let read = threshold::decode_threshold(raw).0;
    println!(rt; "{mm} reads back {read}")
}

fn main(rt: HostRuntime) -> io::Result<()> {
    rate_line(&rt, "0.25", 0x3E80_0000)?;
    rate_line(&rt, "43FFFEB8", 0x43FF_FEB8)?;
    rate_line(&rt, "43FFFEB9", 0x43FF_FEB9)?;
    limit_line(&rt, 32)?;
    limit_line(&rt, 65534)?;
    limit_line(&rt, 65535)?;
    threshold_line(&rt, 8190)?;
    threshold_line(&rt, 8191)?;
    read_back_line(&rt, 301)
}
