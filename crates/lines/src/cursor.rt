// A place in a lent text, and what is put there, one part after the other. std's `Cursor` over a lent slice does not say what it holds after a write.
ghost use Rattle.std.specs.Prelude.{◌≡◌, [], ◌∷◌, ◌+◌, ◌<◌, ◌≤◌, length, take};
ghost use Rattle.lines.specs.Lines.{space, hex_digit, hex_pair, hex_pairs, decimal};
ghost use Rattle.lines.specs.Put.{Put};
ghost use Rattle.lines.specs.Cursor.{HasRoom, Puts};

// How much room is left is no invariant of it: each part takes of the room, and says how much it needs.
#[derive(Drop)]
pub(crate) struct Cursor<'a> {
    pub(crate) text: &'a mut [u8],
    pub(crate) at: usize,
}

#[tactic(auto, unfolding(crate::specs::Lines::hex_digit))]
fn hex_digit(n: u8) -> u8
    requires { n < 16 }
    ensures { result ≡ hex_digit n }
{
    if n < 10 { b'0' + n } else { b'A' - 10 + n }
}

// It calls itself, so it takes the text and the place: a cursor that is lent to a call stays in memory, and is slower.
#[tactic(auto, using(crate::proofs::Numbers::decimal_one, crate::proofs::Numbers::decimal_more, crate::proofs::Numbers::length_more, crate::proofs::Putting::joined))]
fn put_decimal(text: &mut [u8], at: usize, n: u32) -> usize
    requires { at + length (decimal n) ≤ length text.old }
    ensures { Put text.old at (decimal n) text.new result }
{
    if n < 10 {
        text[at] = b'0' + n as u8;
        return at + 1;
    }
    let next = put_decimal(text, at, n / 10);
    text[next] = b'0' + (n % 10) as u8;
    next + 1
}

impl<'a> Cursor<'a> {
    pub(crate) fn byte(&mut self, byte: u8)
        requires { HasRoom self.old 1 }
        ensures { Puts self.old (byte ∷ []) self.new }
    {
        self.text[self.at] = byte;
        self.at += 1;
    }

    pub(crate) fn pair(&mut self, byte: u8)
        requires { HasRoom self.old 2 }
        ensures { Puts self.old (hex_pair byte) self.new }
    {
        self.byte(hex_digit(byte / 16));
        self.byte(hex_digit(byte % 16));
    }

    // A transfer that no driver made may count more bytes than it has.
    pub(crate) fn pairs(&mut self, written: [u8; 7], count: u8)
        requires { HasRoom self.old 14 }
        ensures puts { Puts self.old (hex_pairs (take count written)) self.new }
        ensures upper_bound { self.new.at ≤ self.old.at + 14 }
    {
        let n = count.min(7) as usize;
        for byte in &written[..n] {
            self.pair(*byte);
        }
    }

    // A number after a space: of ten digits at most, and a byte of three.
    #[tactic(auto, using(crate::proofs::Numbers::byte_digits, crate::proofs::Numbers::word_digits, crate::proofs::Putting::joined, crate::proofs::Putting::keeps))]
    pub(crate) fn number(&mut self, n: u32)
        requires { HasRoom self.old 11 }
        ensures puts { Puts self.old (space ∷ decimal n) self.new }
        ensures upper_bound { self.new.at ≤ self.old.at + 11 }
        ensures of_a_byte { n < 256 → self.new.at ≤ self.old.at + 4 }
    {
        self.byte(b' ');
        self.at = put_decimal(self.text, self.at, n);
    }
}
