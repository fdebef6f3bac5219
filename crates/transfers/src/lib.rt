// The transfer of each instruction.
#![tactic(auto)]

mod written;

ghost use Rattle.std.specs.Prelude.{◌≡◌, cond, [], ◌∷◌, ◌≤◌, eqb, get_or, length};
ghost use Rattle.spad.specs.Masks.{or_byte, and_byte};
ghost use Rattle.threshold.specs.Threshold.{encode_threshold};
ghost use Rattle.session.specs.Bus.{transfer_of};
ghost use Rattle.session.specs.Instructions.{send_of, bytes_from};
ghost use Rattle.session.specs.Steps.{op_of, word_bytes, long_bytes, timing_register, timing_length};
ghost use Rattle.session.specs.Machine.{address_of, context_of};

use crate::written::{and_byte, new_map, or_byte};
use session::{Instruction, Session, Transfer, WITH_ADDRESS};
use shapes::{
    address_in, held, low_in, oscillator_word, timed_period, timing_read, wait_register,
    word_to_set,
};
use std::array::from_fn;
use threshold::Millimeters;

// The bytes that are written, with zeros after them, and how many are read then.
fn sent(address: u8, bytes: &[u8], reads: u8) -> Transfer
    requires { length bytes.now ≤ 7 }
    ensures { result ≡ transfer_of address bytes.now reads }
{
    Transfer {
        address,
        count: bytes.len() as u8,
        written: from_fn(|k| bytes.get(k).copied().unwrap_or(0)),
        reads,
    }
}

// A register alone, then `reads` bytes read. Address and register are two numbers here, and not a struct that only these five would take.
fn read(address: u8, register: u8, reads: u8) -> Transfer
    ensures { result ≡ transfer_of address (register ∷ []) reads }
{
    sent(address, &[register], reads)
}

// A register write reads one byte back.
fn write(address: u8, register: u8, byte: u8) -> Transfer
    ensures { result ≡ transfer_of address (register ∷ byte ∷ []) 1 }
{
    sent(address, &[register, byte], 1)
}

// A word goes high byte first.
fn write_word(address: u8, register: u8, word: u16) -> Transfer
    ensures { result ≡ transfer_of address (register ∷ word_bytes word) 1 }
{
    let [high, low] = word.to_be_bytes();
    sent(address, &[register, high, low], 1)
}

// The low four of eight bytes.
fn write_long(address: u8, register: u8, long: u64) -> Transfer
    ensures { result ≡ transfer_of address (register ∷ long_bytes long) 1 }
{
    let [_, _, _, _, top, third, second, low] = long.to_be_bytes();
    sent(address, &[register, top, third, second, low], 1)
}

fn write_map(address: u8, map: [u8; 6]) -> Transfer
    ensures { result ≡ transfer_of address (0xB0 ∷ bytes_from 0 6 map) 6 }
{
    let [a, b, c, d, e, f] = map;
    sent(address, &[0xB0, a, b, c, d, e, f], 6)
}

// 0 is no period: an argument of a record, so a number.
fn mode(period: u32) -> u8
    ensures { result ≡ cond (eqb period 0) 0x02 0x04 }
{
    if period == 0 { 0x02 } else { 0x04 }
}

fn write_threshold(address: u8, register: u8, mm: u16) -> Transfer
    ensures { result ≡ transfer_of address (register ∷ word_bytes (encode_threshold (record { 0 = mm })).0) 1 }
{
    write_word(
        address,
        register,
        threshold::encode_threshold(Millimeters(mm)).0,
    )
}

const FUNCTIONS: [u8; 4] = [0x04, 0x01, 0x02, 0x03];

// What the interrupt pin shows: disabled is written as 4. It and the polarity are numbers, since a waiting session may hold any.
fn function_byte(functionality: u32) -> u8
    ensures { result ≡ get_or (0x04 ∷ 0x01 ∷ 0x02 ∷ 0x03 ∷ []) functionality 0 }
{
    FUNCTIONS.get(functionality as usize).copied().unwrap_or(0)
}

fn polarity_byte(polarity: u16, kept: u8) -> u8
    ensures { result ≡ cond (eqb polarity 0) (and_byte kept 0xEF) (or_byte kept 0x10) }
{
    if polarity == 0 {
        and_byte(kept, 0xEF)
    } else {
        or_byte(kept, 0x10)
    }
}

#[tactic(auto, unfolding(shapes::specs::Shapes::timing_read))]
fn read_timing(address: u8, n: u8) -> Transfer
    ensures { result ≡ transfer_of address (timing_register n ∷ []) (timing_length n) }
{
    let timing = timing_read(n);
    read(address, timing.register, timing.length)
}

// A bring-up's transfers go to its own address.
fn address_of(s: Session) -> u8
    ensures { result ≡ address_of s.code s.a s.driver }
{
    if s.code == WITH_ADDRESS {
        address_in(s)
    } else {
        s.driver.address
    }
}

// The transfer of an instruction. One arm for each.
pub fn send_of(i: Instruction, s: Session) -> Transfer
    ensures { result ≡ send_of (op_of i) (context_of s) }
{
    let address = address_of(s);
    match i {
        Instruction::Nowhere => read(address, 0x00, 1),
        Instruction::Write(register, byte) => write(address, register, byte),
        Instruction::WriteOr(register, mask) => write(
            address,
            register,
            or_byte(s.carried[2], mask),
        ),
        Instruction::WriteAnd(register, mask) => write(
            address,
            register,
            and_byte(s.carried[2], mask),
        ),
        Instruction::Read(register, _) => read(address, register, 1),
        Instruction::ReadWord(register, _) => read(address, register, 2),
        Instruction::Identify => read(address, 0xC0, 1),
        Instruction::ReadMap => read(address, 0xB0, 6),
        Instruction::WriteMap => write_map(address, new_map(s)),
        Instruction::WriteQuarter => write_word(address, 0x44, 32),
        Instruction::WriteRate => write_word(
            address,
            0x44,
            rate::signal_rate_limit_word(s.a).unwrap_or(0),
        ),
        Instruction::WriteStop => write(address, 0x91, held(s.code, s.driver).stop),
        Instruction::Prepared => write(address, 0x80, 0x00),
        Instruction::ReadOscillator => read(address, 0xF8, 2),
        Instruction::WritePeriod => write_long(
            address,
            0x04,
            timed_period(s.a, oscillator_word(s)),
        ),
        Instruction::WriteMode => write(address, 0x00, mode(s.a)),
        Instruction::WriteAddress => sent(address, &[0x8A, address_in(s)], 0),
        Instruction::WriteLow => write_threshold(address, 0x0E, low_in(s)),
        Instruction::WriteHigh => write_threshold(address, 0x0C, s.b),
        Instruction::WriteFunction => write(address, 0x0A, function_byte(s.a)),
        Instruction::WritePolarity => write(address, 0x84, polarity_byte(s.b, s.carried[2])),
        Instruction::ReadStatus => read(address, 0x13, 1),
        Instruction::ReadTiming(n, _) => read_timing(address, n),
        Instruction::FindBudget | Instruction::ReadLast(_, _, _) => read(address, 0x70, 1),
        Instruction::WriteSteps => write(address, 0x01, 0xE8),
        Instruction::WriteWord(slot, setting, dss) => write_word(
            address,
            0x71,
            word_to_set(slot, setting, dss, s).unwrap_or(0),
        ),
        Instruction::Await(condition) => read(address, wait_register(condition), 1),
        Instruction::ReadRange(register, reads, _, _) => read(address, register, reads),
    }
}
