// What many crates need and none of them owns: room in lent bytes, and two bytes as a number.
#![tactic(auto)]

ghost use Rattle.std.specs.Prelude.{◌≡◌, ◌+◌, leb};
ghost use Rattle.ground.specs.Numbers.{word_of};

// Are there n places from `at` on? No method says it of a length alone.
pub fn has_room(length: usize, at: usize, n: usize) -> bool
    ensures { result ≡ leb (at + n) length }
{
    n <= length && at <= length - n
}

// Two bytes as a number, high byte first.
pub fn word(high: u8, low: u8) -> u16
    ensures { result ≡ word_of high low }
{
    u16::from_be_bytes([high, low])
}
