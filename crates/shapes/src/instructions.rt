// The shape of each instruction.
ghost use Rattle.std.specs.Prelude.{◌≡◌, ◌+◌};
ghost use Rattle.session.specs.Bus.{wait_register};
ghost use Rattle.session.specs.Steps.{op_of, timing_register, timing_length, timing_place};
ghost use Rattle.shapes.specs.Shapes.{shape_of, writing, reading, last_reading, ranging, timing_read};

use crate::{Kind, Shape};
use session::{Condition, Instruction, Setting, TIMING_SLOT};

// A write that reads back `reads` bytes.
fn writing(register: u8, reads: u8, over: u8) -> Shape
    ensures { result ≡ writing register reads over }
{
    Shape {
        kind: Kind::Write,
        register,
        reads,
        slot: 0,
        finds: false,
        over,
    }
}

fn reading(register: u8, reads: u8, slot: u16) -> Shape
    ensures { result ≡ reading register reads slot }
{
    Shape {
        kind: Kind::Read,
        register,
        reads,
        slot,
        finds: false,
        over: 0,
    }
}

// The register that a wait reads.
pub fn wait_register(condition: Condition) -> u8
    ensures { result ≡ wait_register condition }
{
    match condition {
        Condition::DetectorReady => 0x83,
        Condition::StatusReady => 0x13,
        Condition::Started => 0x00,
    }
}

#[tactic(auto, unfolding(crate::specs::Shapes::shape_of))]
fn awaiting(condition: Condition) -> Shape
    ensures { result ≡ shape_of (op_of (Instruction.Await condition)) }
{
    Shape {
        kind: Kind::Wait(condition),
        register: wait_register(condition),
        reads: 1,
        slot: 0,
        finds: false,
        over: 0,
    }
}

// A budget read: its register, how many bytes it has, and where they stand among the eight of all six.
#[derive(Clone, Copy)]
pub struct TimingRead {
    pub register: u8,
    pub length: u8,
    pub place: u8,
}

const NO_READ: TimingRead = TimingRead {
    register: 0x00,
    length: 0,
    place: 0,
};

const TIMING_READS: [TimingRead; 7] = [
    NO_READ,
    TimingRead {
        register: 0x01,
        length: 1,
        place: 0,
    },
    TimingRead {
        register: 0x51,
        length: 2,
        place: 1,
    },
    TimingRead {
        register: 0x71,
        length: 2,
        place: 3,
    },
    TimingRead {
        register: 0x50,
        length: 1,
        place: 5,
    },
    TimingRead {
        register: 0x46,
        length: 1,
        place: 6,
    },
    TimingRead {
        register: 0x70,
        length: 1,
        place: 7,
    },
];

// A budget read by its number from 1 on.
pub fn timing_read(n: u8) -> TimingRead
    ensures { result ≡ timing_read n }
{
    TIMING_READS.get(n as usize).copied().unwrap_or(NO_READ)
}

#[tactic(auto, unfolding(crate::specs::Shapes::timing_read))]
fn timing_shape(n: u8, slot: u8) -> Shape
    ensures { result ≡ reading (timing_register n) (timing_length n) (slot + timing_place n) }
{
    let read = timing_read(n);
    reading(read.register, read.length, slot as u16 + read.place as u16)
}

#[tactic(auto, unfolding(crate::specs::Shapes::shape_of))]
fn finding() -> Shape
    ensures { result ≡ shape_of (op_of Instruction.FindBudget) }
{
    Shape {
        finds: true,
        ..reading(0x70, 1, TIMING_SLOT as u16 + 7)
    }
}

// A bring-up leaves out the write where no time is left for the final range.
fn last_shape(slot: u8, setting: Setting) -> Shape
    ensures { result ≡ last_reading slot setting }
{
    let over = match setting {
        Setting::Found => 1,
        Setting::Asked => 0,
    };
    Shape {
        over,
        ..reading(0x70, 1, slot as u16 + 7)
    }
}

fn ranging(register: u8, reads: u8, slot: u8, over: u8) -> Shape
    ensures { result ≡ ranging register reads slot over }
{
    Shape {
        kind: Kind::Range,
        register,
        reads,
        slot: slot as u16,
        finds: false,
        over,
    }
}

// A match, one arm for each instruction; arms that answer alike are one. Compiled into whoever looks an instruction up, once for each record.
#[inline]
#[tactic(auto, unfolding(crate::specs::Shapes::shape_of))]
pub fn shape_of(i: Instruction) -> Shape
    ensures { result ≡ shape_of (op_of i) }
{
    match i {
        Instruction::Nowhere => writing(0x00, 1, 0),
        Instruction::Write(register, _)
        | Instruction::WriteOr(register, _)
        | Instruction::WriteAnd(register, _) => writing(register, 1, 0),
        Instruction::Read(register, slot) => reading(register, 1, slot as u16),
        Instruction::ReadWord(register, slot) => reading(register, 2, slot as u16),
        Instruction::Identify => reading(0xC0, 1, 0),
        Instruction::ReadMap => reading(0xB0, 6, 16),
        Instruction::WriteMap => writing(0xB0, 6, 0),
        Instruction::WriteQuarter | Instruction::WriteRate => writing(0x44, 1, 0),
        Instruction::WriteStop => writing(0x91, 1, 0),
        Instruction::Prepared => writing(0x80, 1, 2),
        Instruction::ReadOscillator => reading(0xF8, 2, 8),
        Instruction::WritePeriod => writing(0x04, 1, 0),
        Instruction::WriteMode => writing(0x00, 1, 0),
        Instruction::WriteAddress => writing(0x8A, 0, 0),
        Instruction::WriteLow => writing(0x0E, 1, 0),
        Instruction::WriteHigh => writing(0x0C, 1, 0),
        Instruction::WriteFunction => writing(0x0A, 1, 0),
        Instruction::WritePolarity => writing(0x84, 1, 0),
        Instruction::ReadStatus => reading(0x13, 1, 2),
        Instruction::ReadTiming(n, slot) => timing_shape(n, slot),
        Instruction::FindBudget => finding(),
        Instruction::ReadLast(slot, setting, _) => last_shape(slot, setting),
        Instruction::WriteSteps => writing(0x01, 1, 7),
        Instruction::WriteWord(_, _, _) => writing(0x71, 1, 0),
        Instruction::Await(condition) => awaiting(condition),
        Instruction::ReadRange(register, reads, slot, over) => ranging(register, reads, slot, over),
    }
}
