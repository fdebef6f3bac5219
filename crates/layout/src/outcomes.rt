// The bytes of an outcome. The first is its number: 255 for a transfer, else the answer's. That is also returned; where there are not as many
// bytes none is written, and 254 is returned.
ghost use Rattle.std.specs.Prelude.{◌≡◌, [], ◌∷◌};
ghost use Rattle.layout.specs.Layout.{transfer_bytes, answer_bytes, refusal_bytes, given_bytes, outcome_size, placed, placed_number};

use lines::{number_of, value_of};
use session::{Answer, Given, Transfer};

pub const OUTCOME_SIZE: usize = 25;

const TRANSFER_NUMBER: u8 = 255;

pub const NOT_PUT: u8 = 254;

#[tactic(auto, unfolding(crate::specs::Layout::transfer_bytes))]
fn transfer_bytes(t: Transfer) -> [u8; OUTCOME_SIZE]
    ensures { result ≡ transfer_bytes t }
{
    let mut bytes = [0; OUTCOME_SIZE];
    bytes[0] = TRANSFER_NUMBER;
    bytes[1] = t.address;
    bytes[2] = t.count;
    bytes[10] = t.reads;
    bytes[3..10].copy_from_slice(&t.written);
    bytes
}

// There is room for five values; today an answer has one.
#[tactic(auto, using(crate::proofs::Images::long_image), unfolding(crate::specs::Layout::answer_bytes))]
fn answer_bytes(number: u8, value: u32, transfers: u32) -> [u8; OUTCOME_SIZE]
    ensures { result ≡ answer_bytes number (value ∷ []) transfers }
{
    let mut bytes = [0; OUTCOME_SIZE];
    bytes[0] = number;
    bytes[1..5].copy_from_slice(&value.to_le_bytes());
    bytes[21..].copy_from_slice(&transfers.to_le_bytes());
    bytes
}

#[tactic(auto, unfolding(crate::specs::Layout::answer_bytes))]
fn refusal_bytes(x: Answer) -> [u8; OUTCOME_SIZE]
    ensures { result ≡ refusal_bytes x }
{
    answer_bytes(number_of(x), 0, 0)
}

// Crate lines has the same match: there it makes text, here bytes.
#[tactic(auto, using(crate::proofs::Images::one_value), unfolding(crate::specs::Layout::given_bytes))]
fn given_bytes(given: Given) -> [u8; OUTCOME_SIZE]
    ensures { result ≡ given_bytes given }
{
    match given {
        Given::Sent(t) => transfer_bytes(t),
        Given::Answered(x, transfers) => answer_bytes(number_of(x), value_of(x), transfers),
        Given::Refused(x) => refusal_bytes(x),
        Given::IllFormed => refusal_bytes(Answer::IllFormedSession),
    }
}

// What C lends has any length.
pub fn put_given(lent: &mut [u8], given: Given) -> u8
    ensures lent_after { lent.new ≡ placed outcome_size lent.old (given_bytes given) }
    ensures value { result ≡ placed_number lent.old (given_bytes given) }
{
    if lent.len() != OUTCOME_SIZE {
        return NOT_PUT;
    }
    let bytes = given_bytes(given);
    lent.copy_from_slice(&bytes);
    bytes[0]
}
