// The six budget replies: which steps of the sequence are on, the timeouts, and the places where
// the Rust panics on them.
#![tactic(auto)]

mod places;
mod registers;
mod timeouts;

use clock::Place;
pub use places::first_place;
pub use registers::{sequence_step_enables, timing_registers};
pub use timeouts::{
    final_time, msrc_time, period_clocks, pre_share, pre_time, step_clocks, time_in,
};

// The six budget replies, by the register that each was read from.
#[derive(Clone, Copy)]
pub struct TimingRegisters {
    // 0x01 SYSTEM_SEQUENCE_CONFIG
    pub sequence: u8,
    // 0x51 PRE_RANGE_CONFIG_TIMEOUT_MACROP_HI
    pub pretimeout: u16,
    // 0x71 FINAL_RANGE_CONFIG_TIMEOUT_MACROP_HI
    pub finaltimeout: u16,
    // 0x50 PRE_RANGE_CONFIG_VCSEL_PERIOD
    pub preperiod: u8,
    // 0x46 MSRC_CONFIG_TIMEOUT_MACROP
    pub msrctimeout: u8,
    // 0x70 FINAL_RANGE_CONFIG_VCSEL_PERIOD
    pub finalperiod: u8,
}

// Which steps of the sequence are on.
#[derive(Clone, Copy)]
pub struct SeqStepEnables {
    pub tcc: bool,
    pub dss: bool,
    pub msrc: bool,
    pub prerange: bool,
    pub finalrange: bool,
}

// A place, if the arithmetic has it, and how many of the replies it needs.
#[derive(Clone, Copy)]
pub struct Entry {
    pub needs: u8,
    pub place: Option<Place>,
}
