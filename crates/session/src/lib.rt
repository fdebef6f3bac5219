// The types that definitions and code share.
#![tactic(auto)]

use budget::DssTerm;

// The codes of two calls that code asks for by name: `with_address` and `read_range_mm`.
pub const WITH_ADDRESS: u8 = 1;

pub const READ_RANGE_MM: u8 = 6;

// The slots of the first and of a bring-up's second budget reads among the carried bytes. Numbers and no enum: public functions take any slot.
pub const TIMING_SLOT: u8 = 8;

pub const SECOND_SLOT: u8 = 16;

// SCOPE 2.6: the rules as first written, and those that hold today. They are named where a call is begun, a reply handed in or a list run, and no
// session says anything of them.
#[derive(Clone, Copy, PartialEq, Eq, Debug)]
pub enum Rules {
    First,
    Current,
}

// lib.rs: the fields of VL53L0x that a call can change. What is known of a sensor that is up: its address, its stop byte and its stored budget in
// microseconds. All zero while it is not up.
// `up` stands beside them and is no Option around them: callers in C hand in any bytes for these four, and have them back as they were.
#[derive(Clone, Copy, Default)]
pub struct Driver {
    pub up: bool,
    pub address: u8,
    pub stop: u8,
    pub budget: u32,
}

// A driver and the call that waits for a reply of the bus, if there is one.
// `code` 0: no call waits. `a` and `b` are its arguments, `step` its place in the list of its
// instructions, `idle` the idle reads of the wait it stands at, `transfers` those made so far.
// `failed` is the failure code of its range read, `found_budget` the budget that its first six budget
// reads gave, which calls 1 and 15 find, `carried` the reply bytes that it has kept, raw.
// The carried bytes are 24 because memory is fixed, and each call has slots of its own among them.
// `code` and `failed` are numbers, where 0 says that there is none, since callers in C hand in any: answer 15 judges them, and not a type.
#[derive(Clone, Copy)]
pub struct Session {
    pub driver: Driver,
    pub code: u8,
    pub a: u32,
    pub b: u16,
    pub step: u8,
    pub idle: u32,
    pub transfers: u32,
    pub failed: u8,
    pub found_budget: u32,
    pub carried: [u8; 24],
}

// SCOPE 4.1: an address, 1 to 7 bytes to be written, a read length. The first `count` bytes of `written` are sent to `address`, then `reads` bytes
// are read. The bytes of `written` after them are zero. `count` stands beside seven bytes because memory is fixed, and as callers in C read it.
#[derive(Clone, Copy)]
pub struct Transfer {
    pub address: u8,
    pub count: u8,
    pub written: [u8; 7],
    pub reads: u8,
}

// What a wait waits for: a byte of 0x83, of 0x13, of 0x00.
#[derive(Clone, Copy, PartialEq, Eq, Debug)]
pub enum Condition {
    DetectorReady,
    StatusReady,
    Started,
}

// Which budget a call sets: the one that it has found, or the one that its argument asks for.
#[derive(Clone, Copy, PartialEq, Eq, Debug)]
pub enum Setting {
    Found,
    Asked,
}

// A call as a record gives it: its code and the arguments A and B.
#[derive(Clone, Copy)]
pub struct CallRecord {
    pub code: u8,
    pub a: u32,
    pub b: u16,
}

// A reply of the bus as a record gives it: the failure code or 0, and six data bytes, just as a record has them.
#[derive(Clone, Copy)]
pub struct ReplyRecord {
    pub failure: u8,
    pub data: [u8; 6],
}

// The answers of SCOPE 9.1, 0 to 15, in lib.rs's names where its Error has one. The first nine end a call, the others refuse a record or a list.
// Places and failure codes are numbers here: functions that print an answer take every one.
#[derive(Clone, Copy)]
pub enum Answer {
    Done(u32),
    False,
    InvalidDevice(u8),
    BusError(u8),
    Timeout,
    InvalidAddress(u8),
    InvalidArgument,
    WouldBlock,
    Panic(u8),
    NotUp,
    CallWaits,
    NoCallWaits,
    StrayByte,
    IllFormedRecord,
    SpareBytes,
    IllFormedSession,
}

// One of four: a transfer, the answer of a call with the transfers that it made, a refusal, or the session itself is ill-formed (answer 15).
#[derive(Clone, Copy)]
pub enum Given {
    Sent(Transfer),
    Answered(Answer, u32),
    Refused(Answer),
    IllFormed,
}

// What a call, a reply or a record gives, and the new session.
#[derive(Clone, Copy)]
pub struct Outcome {
    pub given: Given,
    pub session: Session,
}

// One step of a call: a transfer and what is done with its reply. Registers, bytes and slots of
// the carried bytes are numbers. A closed enum and no closures, so that calls are tables and every function goes through all of it.
#[derive(Clone, Copy)]
pub enum Instruction {
    // No step: what a table gives past its end. A variant and no Option around the others, as public functions take it too.
    Nowhere,
    // Write a byte to a register.
    Write(u8, u8),
    // Write to a register the kept byte with the bits of a mask set, or with no others left.
    WriteOr(u8, u8),
    WriteAnd(u8, u8),
    // Read one byte, or a word, from a register into a slot.
    Read(u8, u8),
    ReadWord(u8, u8),
    // Read the identity, which has to be 0xEE.
    Identify,
    // Read the detector map; write the selection from it.
    ReadMap,
    WriteMap,
    // Write the signal rate limit 0.25, and the one that the caller gave.
    WriteQuarter,
    WriteRate,
    // Write the stop byte.
    WriteStop,
    // End the preparation of a continuous measurement; without a period skip the two timed steps.
    Prepared,
    ReadOscillator,
    WritePeriod,
    WriteMode,
    // Write a new address.
    WriteAddress,
    // Write the low, the high threshold.
    WriteLow,
    WriteHigh,
    // Write what the interrupt pin shows, and its polarity.
    WriteFunction,
    WritePolarity,
    // Read the status once: no reading is ready, or go on.
    ReadStatus,
    // One of the first five budget reads, by its number and the slot of the first of their bytes.
    ReadTiming(u8, u8),
    // The sixth of the budget reads from slot 8 on: it finds the budget that they amount to.
    FindBudget,
    // The sixth of those that are kept from a slot on, before a new final range word is written for a budget, with DSS counted so often.
    ReadLast(u8, Setting, DssTerm),
    // Write the sequence steps; skip the setting of a budget that is too short.
    WriteSteps,
    // Write the final range word for the replies that are kept from a slot on.
    WriteWord(u8, Setting, DssTerm),
    // One read of a wait.
    Await(Condition),
    // A range read, from a register, of so many bytes into a slot: a failure is kept, and the call goes on over so many instructions.
    ReadRange(u8, u8, u8, u8),
}
