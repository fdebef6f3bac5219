// From the raw reply bytes to numbers and flags.
ghost use Rattle.std.specs.Prelude.{◌≡◌};
ghost use Rattle.timing.specs.Registers.{registers_of, sequence_step_enables};

use crate::{SeqStepEnables, TimingRegisters};
use ground::word;

// The registers from the eight raw bytes of the replies, in the order of the reads.
pub fn timing_registers(bytes: [u8; 8]) -> TimingRegisters
    ensures { result ≡ registers_of bytes }
{
    TimingRegisters {
        sequence: bytes[0],
        pretimeout: word(bytes[1], bytes[2]),
        finaltimeout: word(bytes[3], bytes[4]),
        preperiod: bytes[5],
        msrctimeout: bytes[6],
        finalperiod: bytes[7],
    }
}

// The steps that the sequence byte turns on, each by its bit (SCOPE 5.3).
pub fn sequence_step_enables(sequence: u8) -> SeqStepEnables
    ensures { result ≡ sequence_step_enables sequence }
{
    SeqStepEnables {
        tcc: sequence / 16 % 2 == 1,
        dss: sequence / 8 % 2 == 1,
        msrc: sequence / 4 % 2 == 1,
        prerange: sequence / 64 % 2 == 1,
        finalrange: sequence / 128 % 2 == 1,
    }
}
