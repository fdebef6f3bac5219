// The instructions of the calls after the bring-up.
ghost use Rattle.std.specs.Prelude.{◌≡◌};
ghost use Rattle.session.specs.Calls.{who_am_i_call, set_address_call, start_continuous_call, stop_continuous_call, read_range_mm_call, read_range_continuous_call, read_range_single_call, set_budget_call, set_thresholds_call, get_thresholds_call, set_gpio_config_call, clear_interrupt_status_call, set_signal_rate_limit_call, get_budget_call, get_signal_rate_limit_call};
ghost use Rattle.calls.specs.Calls.{step_of};

use crate::sections::{
    CLEARING, PREPARATION, READ_RANGE, budget_write, gpio_writes, in_order, row, timing_reads,
};
use budget::DssTerm;
use session::{Condition, Instruction, Setting, TIMING_SLOT};

pub(crate) fn who_am_i(step: u8) -> Instruction
    ensures { result ≡ step_of who_am_i_call.steps step }
{
    row(&[Instruction::Read(0xC0, 0)], step)
}

pub(crate) fn set_address(step: u8) -> Instruction
    ensures { result ≡ step_of set_address_call.steps step }
{
    row(&[Instruction::WriteAddress], step)
}

const START: [Instruction; 4] = [
    Instruction::Prepared,
    Instruction::ReadOscillator,
    Instruction::WritePeriod,
    Instruction::WriteMode,
];

pub(crate) fn start_continuous(step: u8) -> Instruction
    ensures { result ≡ step_of start_continuous_call.steps step }
{
    in_order(&[&PREPARATION, &START], step)
}

const STOP_CONTINUOUS: [Instruction; 6] = [
    Instruction::Write(0x00, 0x01),
    Instruction::Write(0xFF, 0x01),
    Instruction::Write(0x00, 0x00),
    Instruction::Write(0x91, 0x00),
    Instruction::Write(0x00, 0x01),
    Instruction::Write(0xFF, 0x00),
];

pub(crate) fn stop_continuous(step: u8) -> Instruction
    ensures { result ≡ step_of stop_continuous_call.steps step }
{
    row(&STOP_CONTINUOUS, step)
}

pub(crate) fn read_range_mm(step: u8) -> Instruction
    ensures { result ≡ step_of read_range_mm_call.steps step }
{
    in_order(&[&[Instruction::ReadStatus, READ_RANGE], &CLEARING], step)
}

// A wait for a range, and its read.
const AWAITED: [Instruction; 2] = [Instruction::Await(Condition::StatusReady), READ_RANGE];

pub(crate) fn read_range_continuous(step: u8) -> Instruction
    ensures { result ≡ step_of read_range_continuous_call.steps step }
{
    in_order(&[&AWAITED, &CLEARING], step)
}

// What stands between the shared writes of read_range_single_millimeters_blocking and its wait for a range.
const SINGLE: [Instruction; 3] = [
    Instruction::Write(0x80, 0x00),
    Instruction::Write(0x00, 0x01),
    Instruction::Await(Condition::Started),
];

pub(crate) fn read_range_single(step: u8) -> Instruction
    ensures { result ≡ step_of read_range_single_call.steps step }
{
    in_order(&[&PREPARATION, &SINGLE, &AWAITED, &CLEARING], step)
}

pub(crate) fn set_budget(dss: DssTerm, step: u8) -> Instruction
    ensures { result ≡ step_of (set_budget_call dss).steps step }
{
    in_order(
        &[
            &timing_reads(TIMING_SLOT),
            &budget_write(TIMING_SLOT, Setting::Asked, dss),
        ],
        step,
    )
}

pub(crate) fn set_thresholds(step: u8) -> Instruction
    ensures { result ≡ step_of set_thresholds_call.steps step }
{
    row(&[Instruction::WriteLow, Instruction::WriteHigh], step)
}

pub(crate) fn get_thresholds(step: u8) -> Instruction
    ensures { result ≡ step_of get_thresholds_call.steps step }
{
    row(
        &[
            Instruction::ReadWord(0x0E, 8),
            Instruction::ReadWord(0x0C, 10),
        ],
        step,
    )
}

pub(crate) fn set_gpio_config(step: u8) -> Instruction
    ensures { result ≡ step_of set_gpio_config_call.steps step }
{
    in_order(
        &[
            &gpio_writes(Instruction::WriteFunction, Instruction::WritePolarity),
            &CLEARING,
        ],
        step,
    )
}

pub(crate) fn clear_interrupt_status(step: u8) -> Instruction
    ensures { result ≡ step_of clear_interrupt_status_call.steps step }
{
    row(&CLEARING, step)
}

pub(crate) fn set_signal_rate_limit(step: u8) -> Instruction
    ensures { result ≡ step_of set_signal_rate_limit_call.steps step }
{
    row(&[Instruction::WriteRate], step)
}

pub(crate) fn get_budget(step: u8) -> Instruction
    ensures { result ≡ step_of get_budget_call.steps step }
{
    in_order(
        &[&timing_reads(TIMING_SLOT), &[Instruction::FindBudget]],
        step,
    )
}

pub(crate) fn get_signal_rate_limit(step: u8) -> Instruction
    ensures { result ≡ step_of get_signal_rate_limit_call.steps step }
{
    row(&[Instruction::ReadWord(0x44, TIMING_SLOT)], step)
}
