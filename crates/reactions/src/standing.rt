// A session at an instruction, and a session with the move that it makes and the rules by which it does.
ghost use Rattle.checks.specs.Sound.{Sound};
ghost use Rattle.reactions.specs.Standing.{leads, SoundIf};

use crate::Move;
use session::{Instruction, Rules, Session};

// A session of a call at an instruction of it; before the first and after the last, at none. One transfer more can be counted.
#[derive(Clone, Copy)]
pub struct Standing {
    pub at: Instruction,
    pub session: Session,
    pub ghost sound: { Sound session },
}

// A move from an instruction, the session that makes it, and the rules by which it does.
#[derive(Clone, Copy)]
pub struct Decision {
    pub rules: Rules,
    pub next: Move,
    pub at: Instruction,
    pub session: Session,
    pub ghost sound_if: { SoundIf (leads next) session },
}
