// The signal rate limit, an `f32` in MCPS given by its bits, as the register's Q9.7 word (call 14), and back (call 16).
#![tactic(auto)]

ghost use Rattle.std.specs.Prelude.{◌≡◌};
ghost use Rattle.std.specs.Float.{binary32};
ghost use Rattle.std.specs.Float.Ieee.{of_bits, to_unsigned};
ghost use Rattle.rate.specs.Rate.{signal_rate_limit_word, signal_rate_limit_bits};

// `f32::from_bits(bits) as u16` of Rust, worked out from the bits: the fraction is dropped, and what a `u16` does not hold becomes its nearest end.
fn whole_part(bits: u32) -> u16
    ensures { result ≡ to_unsigned 16 (of_bits binary32 bits) }
{
    // a NaN, or the sign is set
    if 0x7f80_0000 < bits {
        return 0;
    }
    // below 1
    if bits < 0x3f80_0000 {
        return 0;
    }
    // 2^16 or more, infinity too
    if 0x477f_ffff < bits {
        return u16::MAX;
    }
    // from 1 up the value is (2^23 + fraction) * 2^(exponent - 150)
    let exponent: u32 = bits >> 23;
    let digits: u32 = 0x80_0000 + bits % 0x80_0000;
    (digits >> (150 - exponent)) as u16
}

// The word of a limit whose float has these bits; none where it is refused (answer 1). A NaN's pattern is refused before a float is made of it.
pub fn signal_rate_limit_word(bits: u32) -> Option<u16>
    ensures { result ≡ signal_rate_limit_word bits }
{
    if 0x7f80_0000 < bits % 0x8000_0000 {
        return None;
    }
    let limit: f32 = f32::from_bits(bits);
    if limit >= 0.0 && limit <= 511.99 {
        Some(whole_part(f32::to_bits(limit * 128.0)))
    } else {
        None
    }
}

// The limit that a word stands for, as the bits of its float: the division is exact.
pub fn signal_rate_limit_bits(word: u16) -> u32
    ensures { result ≡ signal_rate_limit_bits word }
{
    f32::to_bits(word as f32 / 128.0)
}
