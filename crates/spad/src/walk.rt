// The bits of one byte, from the lowest on. The rest of the crate sees `walk_bits` alone, so that no other bytes are walked than those that it takes.
ghost use Rattle.std.specs.Prelude.{◌≡◌, ◌≤◌};
ghost use Rattle.spad.specs.Map.{bits_of, byte_of, keep};
ghost use Rattle.spad.specs.Bytes.{byte_kept, IsCut};
ghost use Rattle.spad.specs.Walk.{BitWalked};

use crate::Left;

// A masked bit, and what is left for the next bit.
#[derive(Clone, Copy)]
struct Step {
    bit: u8,
    left: Left,
}

// The lowest bit of `b`: cleared while bits are skipped, and once no more are wanted.
fn keep_bit(b: u8, left: Left) -> Step
    ensures { BitWalked b left.skip left.wanted result.bit result.left.skip result.left.wanted }
{
    if 0 < left.skip {
        return Step {
            bit: 0,
            left: Left {
                skip: left.skip - 1,
                ..left
            },
        };
    }
    if left.wanted == 0 {
        return Step { bit: 0, left };
    }
    let bit = b % 2;
    Step {
        bit,
        left: Left {
            wanted: left.wanted - bit as u32,
            ..left
        },
    }
}

// The low `n` bits of `b`, from the lowest on. It calls itself on the bits above, as `keep` goes through a list.
fn keep_bits(n: u8, b: u8, left: Left) -> u8
    requires { n ≤ 8 }
    ensures { result ≡ byte_of (keep left.skip left.wanted (bits_of n b)) }
{
    if n == 0 {
        return 0;
    }
    let s = keep_bit(b, left);
    s.bit + 2 * keep_bits(n - 1, b / 2, s.left)
}

// A byte that the start cuts, or in which the count runs out, with the detectors that are kept of it.
pub(crate) fn walk_bits(b: u8, left: Left) -> u8
    requires { IsCut b left.skip left.wanted }
    ensures { result ≡ byte_kept left.skip left.wanted b }
{
    keep_bits(8, b, left)
}
