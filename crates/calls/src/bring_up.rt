// The 156 instructions of a bring-up: with_address and init_hardware.
ghost use Rattle.std.specs.Prelude.{◌≡◌};
ghost use Rattle.session.specs.Calls.{bring_up_steps};
ghost use Rattle.calls.specs.Calls.{step_of};
ghost use Rattle.calls.specs.Parts.{stage, from_gpio, from_tuning};

use crate::sections::{CLEARING, budget_write, gpio_writes, in_order, timing_reads};
use crate::tuning::load_tuning_settings;
use budget::DssTerm;
use session::{Condition, Instruction, SECOND_SLOT, Setting, TIMING_SLOT};

// Identity, 2V8 mode, standard I2C mode and the stop byte, limit checks, signal rate limit.
const OPENING: [Instruction; 15] = [
    Instruction::Identify,
    Instruction::Read(0x89, 2),
    Instruction::WriteOr(0x89, 0x01),
    Instruction::Write(0x88, 0x00),
    Instruction::Write(0x80, 0x01),
    Instruction::Write(0xFF, 0x01),
    Instruction::Write(0x00, 0x00),
    Instruction::Read(0x91, 1),
    Instruction::Write(0x00, 0x01),
    Instruction::Write(0xFF, 0x00),
    Instruction::Write(0x80, 0x00),
    Instruction::Read(0x60, 2),
    Instruction::WriteOr(0x60, 0x12),
    Instruction::WriteQuarter,
    Instruction::Write(0x01, 0xFF),
];

// get_spad_info
const SPAD_INFO: [Instruction; 22] = [
    Instruction::Write(0x80, 0x01),
    Instruction::Write(0xFF, 0x01),
    Instruction::Write(0x00, 0x00),
    Instruction::Write(0xFF, 0x06),
    Instruction::Read(0x83, 2),
    Instruction::WriteOr(0x83, 0x04),
    Instruction::Write(0xFF, 0x07),
    Instruction::Write(0x81, 0x01),
    Instruction::Write(0x80, 0x01),
    Instruction::Write(0x94, 0x6B),
    Instruction::Write(0x83, 0x00),
    Instruction::Await(Condition::DetectorReady),
    Instruction::Write(0x83, 0x01),
    Instruction::Read(0x92, 3),
    Instruction::Write(0x81, 0x00),
    Instruction::Write(0xFF, 0x06),
    Instruction::Read(0x83, 2),
    Instruction::WriteAnd(0x83, 0xFB),
    Instruction::Write(0xFF, 0x01),
    Instruction::Write(0x00, 0x01),
    Instruction::Write(0xFF, 0x00),
    Instruction::Write(0x80, 0x00),
];

// The detector map is read, and the selection from it written.
const MAP: [Instruction; 7] = [
    Instruction::ReadMap,
    Instruction::Write(0xFF, 0x01),
    Instruction::Write(0x4F, 0x00),
    Instruction::Write(0x4E, 0x2C),
    Instruction::Write(0xFF, 0x00),
    Instruction::Write(0xB6, 0xB4),
    Instruction::WriteMap,
];

// perform_single_ref_calibration, and the sequence that is written before it
fn stage(sequence: u8, byte: u8) -> [Instruction; 6]
    ensures { result ≡ stage sequence byte }
{
    [
        Instruction::Write(0x01, sequence),
        Instruction::Write(0x00, byte),
        Instruction::Await(Condition::StatusReady),
        CLEARING[0],
        CLEARING[1],
        Instruction::Write(0x00, 0x00),
    ]
}

// From the pin on: its configuration, the budget, perform_ref_calibration.
fn from_gpio(dss: DssTerm, step: u8) -> Instruction
    ensures { result ≡ step_of (from_gpio dss) step }
{
    in_order(
        &[
            &gpio_writes(
                Instruction::Write(0x0A, 0x04),
                Instruction::WriteAnd(0x84, 0xEF),
            ),
            &CLEARING,
            &timing_reads(TIMING_SLOT),
            &[Instruction::FindBudget, Instruction::WriteSteps],
            &timing_reads(SECOND_SLOT),
            &budget_write(SECOND_SLOT, Setting::Found, dss),
            &stage(0x01, 0x41),
            &stage(0x02, 0x01),
            &[Instruction::Write(0x01, 0xE8)],
        ],
        step,
    )
}

// The tuning rows are no table of instructions, so they stand between two lists of tables.
fn from_tuning(dss: DssTerm, step: u8) -> Instruction
    ensures { result ≡ step_of (from_tuning dss) step }
{
    if step < 80 {
        load_tuning_settings(step)
    } else {
        from_gpio(dss, step - 80)
    }
}

pub(crate) fn with_address(dss: DssTerm, step: u8) -> Instruction
    ensures { result ≡ step_of (bring_up_steps dss) step }
{
    if step < 44 {
        in_order(&[&OPENING, &SPAD_INFO, &MAP], step)
    } else {
        from_tuning(dss, step - 44)
    }
}
