// Values that are written. `|` and `&` have the names of their definitions here.
ghost use Rattle.std.specs.Prelude.{◌≡◌};
ghost use Rattle.spad.specs.Masks.{or_byte, and_byte};
ghost use Rattle.session.specs.Steps.{new_map};
ghost use Rattle.session.specs.Machine.{context_of};

use session::Session;

#[tactic(auto, using(crate::proofs::Laws::or_mask))]
pub(crate) fn or_byte(x: u8, mask: u8) -> u8
    ensures { result ≡ or_byte x mask }
{
    x | mask
}

#[tactic(auto, using(crate::proofs::Laws::and_mask))]
pub(crate) fn and_byte(x: u8, mask: u8) -> u8
    ensures { result ≡ and_byte x mask }
{
    x & mask
}

// The new detector map: the count stands in the low seven bits of the byte of 0x92, the aperture flag above them.
pub(crate) fn new_map(s: Session) -> [u8; 6]
    ensures { result ≡ new_map (context_of s) }
{
    let info = s.carried[3];
    let mut map = [0; 6];
    map.copy_from_slice(&s.carried[16..22]);
    spad::select_spads(map, info % 128, info / 128 % 2 != 0).map
}
