// What the crate spad answers.
use std::io;
use std::io::Write;

fn map(out: &mut impl Write, m: [u8; 6]) -> io::Result<()> {
    for byte in m {
        write!(out, "{byte:02X}")?;
    }
    Ok(())
}

pub fn select_spads(out: &mut impl Write, old: [u8; 6], count: u8, flag: u8) -> io::Result<()> {
    write!(out, "spads ")?;
    map(out, old)?;
    write!(out, " {count} {flag} ")?;
    let selection = spad::select_spads(old, count, flag != 0);
    map(out, selection.map)?;
    write!(out, " {}", selection.kept)
}
