// Sequences that several calls share, and how a step is looked up.
ghost use Rattle.std.specs.Prelude.{◌≡◌, get_or};
ghost use Rattle.std.specs.List.{flat_map};
ghost use Rattle.session.specs.Calls.{timing_reads};
ghost use Rattle.calls.specs.Calls.{step_of};
ghost use Rattle.calls.specs.Parts.{budget_write, gpio_writes};

use budget::DssTerm;
use session::{Instruction, Setting};

// What a table has at an index; past its end, `past`.
pub(crate) fn looked_up<T: Copy>(table: &[T], i: u8, past: T) -> T
    ensures { result ≡ get_or table.now i past }
{
    table.get(i as usize).copied().unwrap_or(past)
}

// The instruction of a table at a step; past its end there is none.
// `Nowhere` stays a variant: public functions take every Instruction, and an Option beside it would ask more of their callers.
#[tactic(auto, unfolding(crate::specs::Calls::step_of))]
pub(crate) fn row(table: &[Instruction], step: u8) -> Instruction
    ensures { result ≡ step_of table.now step }
{
    looked_up(table, step, Instruction::Nowhere)
}

// The instruction at a step of tables that follow one another. Whole tables are passed: `flat_map` and `nth` would go through each
// instruction, and their proof did not close.
pub(crate) fn in_order(tables: &[&[Instruction]], step: u8) -> Instruction
    ensures { result ≡ step_of (flat_map (λ t. t.now) tables.now) step }
{
    let mut i = step as usize;
    for table in tables {
        if i < table.len() {
            return table[i];
        }
        i -= table.len();
    }
    Instruction::Nowhere
}

// clear_interrupt_status
pub(crate) const CLEARING: [Instruction; 2] = [
    Instruction::Write(0x0B, 0x01),
    Instruction::Write(0x0B, 0x00),
];

// The first six writes of start_continuous and of read_range_single_millimeters_blocking.
pub(crate) const PREPARATION: [Instruction; 6] = [
    Instruction::Write(0x80, 0x01),
    Instruction::Write(0xFF, 0x01),
    Instruction::Write(0x00, 0x00),
    Instruction::WriteStop,
    Instruction::Write(0x00, 0x01),
    Instruction::Write(0xFF, 0x00),
];

// get_sequence_step_enables and get_sequence_step_timeouts but for the last read. The bytes are kept from `slot` on.
pub(crate) fn timing_reads(slot: u8) -> [Instruction; 5]
    ensures { result ≡ timing_reads slot }
{
    [
        Instruction::ReadTiming(1, slot),
        Instruction::ReadTiming(2, slot),
        Instruction::ReadTiming(3, slot),
        Instruction::ReadTiming(4, slot),
        Instruction::ReadTiming(5, slot),
    ]
}

// set_measurement_timing_budget after the first five reads
pub(crate) fn budget_write(slot: u8, setting: Setting, dss: DssTerm) -> [Instruction; 2]
    ensures { result ≡ budget_write slot setting dss }
{
    [
        Instruction::ReadLast(slot, setting, dss),
        Instruction::WriteWord(slot, setting, dss),
    ]
}

// The range read of calls 6, 7 and 8.
pub(crate) const READ_RANGE: Instruction = Instruction::ReadRange(0x1E, 2, 4, 0);

// set_gpio_config without its clearing
pub(crate) fn gpio_writes(function: Instruction, polarity: Instruction) -> [Instruction; 3]
    ensures { result ≡ gpio_writes function polarity }
{
    [function, Instruction::Read(0x84, 2), polarity]
}
