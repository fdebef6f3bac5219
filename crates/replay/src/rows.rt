// The answers of a function for every argument, sixteen to a line.
ghost use Rattle.std.specs.Iterator.{IsFinite};

use std::fmt::Display;
use std::io;
use std::io::Write;

pub(crate) fn rows<W: Write, N: Copy + Display + Into<u32>, I: Iterator<Item = N>, F>(
    out: &mut W,
    name: &str,
    arguments: I,
    answer: F,
) -> io::Result<()>
where
    F: Fn(&mut W, N) -> io::Result<()>,
    requires can { I.can_next arguments }
    requires ends { IsFinite (I.remaining arguments) }
    requires callable { F.IsAlwaysCallable answer }
{
    for n in arguments {
        let i: u32 = n.into();
        if i % 16 == 0 {
            write!(out, "{name} {n}:")?;
        }
        write!(out, " ")?;
        answer(out, n)?;
        if i % 16 == 15 {
            writeln!(out)?;
        }
    }
    Ok(())
}
