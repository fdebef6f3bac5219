// What an instruction is to a session: its shape, what is kept of its reply, and values of what is kept.
#![tactic(auto)]

mod instructions;
mod kept;
mod values;

pub use instructions::{TimingRead, shape_of, timing_read, wait_register};
pub use kept::kept_by;
use session::{Answer, Condition};
pub use values::{address_in, held, low_in, oscillator_word, timed_period, timing_in, word_to_set};

// A transfer that writes, one that reads, one read of a wait, a range read.
#[derive(Clone, Copy, PartialEq, Eq, Debug)]
pub enum Kind {
    Write,
    Read,
    Wait(Condition),
    Range,
}

// A transfer's register and read length, the slot that the bytes read are kept from, whether the budget is found with them, and how many
// instructions a leap leaves out.
#[derive(Clone, Copy)]
pub struct Shape {
    pub kind: Kind,
    pub register: u8,
    pub reads: u8,
    pub slot: u16,
    pub finds: bool,
    pub over: u8,
}

// What a good reply, or the arguments of a call, decide. Three cases, so no Option or Result: a leap is no error.
#[derive(Clone, Copy)]
pub enum Verdict {
    Onward,
    Leap,
    Stop(Answer),
}
