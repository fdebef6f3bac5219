// The detector (SPAD) map: detector i is bit i % 8 of byte i / 8, and a set bit is a good detector.
// lib.rs: init_hardware, the loop over 48 bits. Here the walk goes byte by byte, and carries how many bits to skip and how many good ones are wanted.
#![tactic(auto)]

ghost use Rattle.std.specs.Prelude.{◌≡◌};
ghost use Rattle.spad.specs.Map.{first_spad, select_spads};
ghost use Rattle.spad.specs.Bytes.{byte_kept};
ghost use Rattle.spad.specs.Walk.{ByteMasked};

mod walk;

use walk::walk_bits;

// The new map, and how many detectors it keeps.
#[derive(Clone, Copy)]
pub struct Selection {
    pub map: [u8; 6],
    pub kept: u32,
}

// How many detectors are left to skip, and how many good ones are still wanted.
#[derive(Clone, Copy)]
struct Left {
    skip: u32,
    wanted: u32,
}

// A masked byte, its count of ones, and what is left for the next byte.
#[derive(Clone, Copy)]
struct MaskedByte {
    byte: u8,
    kept: u32,
    left: Left,
}

// A byte with the detectors that are kept of it: none before the start or once no more are wanted, and all where the count covers the good ones.
#[tactic(auto, using(crate::proofs::Bytes::before, crate::proofs::Bytes::run_out, crate::proofs::Bytes::left_whole))]
fn byte_kept(b: u8, left: Left) -> u8
    ensures { result ≡ byte_kept left.skip left.wanted b }
{
    if 8 <= left.skip || left.wanted == 0 {
        return 0;
    }
    if left.skip == 0 && u8::count_ones(b) <= left.wanted {
        return b;
    }
    walk_bits(b, left)
}

// A byte of the map, masked, with its ones counted.
fn mask_byte(b: u8, left: Left) -> MaskedByte
    ensures { ByteMasked b left.skip left.wanted result.byte result.kept result.left.skip result.left.wanted }
{
    let byte = byte_kept(b, left);
    let kept = u8::count_ones(byte);
    MaskedByte {
        byte,
        kept,
        left: Left {
            skip: left.skip.saturating_sub(8),
            wanted: left.wanted - kept,
        },
    }
}

// 12 is the first aperture detector.
fn first_spad(aperture: bool) -> u32
    ensures { result ≡ first_spad aperture }
{
    if aperture { 12 } else { 0 }
}

// The map with only the first `count` good detectors from the first one on, and their number.
pub fn select_spads(map: [u8; 6], count: u8, aperture: bool) -> Selection
    ensures { result ≡ select_spads map count aperture }
{
    let mut selected = map;
    let mut kept = 0;
    let mut left = Left {
        skip: first_spad(aperture),
        wanted: count as u32,
    };
    for (i, byte) in map.iter().enumerate() {
        let w = mask_byte(*byte, left);
        selected[i] = w.byte;
        kept += w.kept;
        left = w.left;
    }
    Selection {
        map: selected,
        kept,
    }
}
