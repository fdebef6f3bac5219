// Values of what a session carries.
ghost use Rattle.std.specs.Prelude.{◌≡◌, cond, ◌*◌, eqb, get_or};
ghost use Rattle.session.specs.Instructions.{bytes_from, timing_in, budget_in};
ghost use Rattle.session.specs.Steps.{slot_word, address_in, low_in, budget_to_set, word_to_set};
ghost use Rattle.session.specs.Machine.{held_by, context_of};

use budget::{DssTerm, NoWord};
use clock::Microseconds;
use session::{Driver, Session, Setting, WITH_ADDRESS};
use std::array::from_fn;
use timing::TimingRegisters;

// The driver's fields that a call leaves if it does not succeed: a bring-up leaves none.
pub fn held(code: u8, driver: Driver) -> Driver
    ensures { result ≡ held_by code driver }
{
    if code == WITH_ADDRESS {
        Driver::default()
    } else {
        driver
    }
}

// Eight carried bytes from a slot on; past the last slot there is none.
fn eight_bytes(slot: u8, carried: [u8; 24]) -> [u8; 8]
    ensures { result ≡ bytes_from slot 8 carried }
{
    from_fn(|k| carried.get(slot as usize + k).copied().unwrap_or(0))
}

// The six budget replies that are carried from a slot on.
// Slot and bytes are two parameters: the slot is the instruction's, the bytes are the session's.
pub fn timing_in(slot: u8, carried: [u8; 24]) -> TimingRegisters
    ensures { result ≡ timing_in slot carried }
{
    timing::timing_registers(eight_bytes(slot, carried))
}

// Call 15's value for them.
pub(crate) fn budget_in(slot: u8, carried: [u8; 24]) -> u32
    ensures { result ≡ budget_in slot carried }
{
    timing::time_in(budget::measurement_timing_budget(timing_in(slot, carried))).0
}

// A record's A as an address, and as a threshold. A session that no run leaves may hold more.
pub fn address_in(s: Session) -> u8
    ensures { result ≡ address_in (context_of s) }
{
    (s.a % 256) as u8
}

pub fn low_in(s: Session) -> u16
    ensures { result ≡ low_in (context_of s) }
{
    (s.a % 65536) as u16
}

// The budget that a call sets.
fn budget_to_set(setting: Setting, s: Session) -> u32
    ensures { result ≡ budget_to_set setting (context_of s) }
{
    match setting {
        Setting::Found => s.found_budget,
        Setting::Asked => s.a,
    }
}

// DSS counts as the instruction says.
pub fn word_to_set(slot: u8, setting: Setting, dss: DssTerm, s: Session) -> Result<u16, NoWord>
    ensures { result ≡ word_to_set slot setting dss (context_of s) }
{
    let carried = s.carried;
    budget::final_range_word(
        timing_in(slot, carried),
        Microseconds(budget_to_set(setting, s)),
        dss,
    )
}

pub fn oscillator_word(s: Session) -> u16
    ensures { result ≡ slot_word 8 (context_of s) }
{
    ground::word(s.carried[8], s.carried[9])
}

// An oscillator word of 0 leaves the period. In 64 bits it always fits.
pub fn timed_period(period: u32, oscillator: u16) -> u64
    ensures { result ≡ cond (eqb oscillator 0) period (period * oscillator) }
{
    if oscillator == 0 {
        period as u64
    } else {
        period as u64 * oscillator as u64
    }
}
