//! Why a wish or a question has no answer.

ghost use Rattle.std.specs.Prelude.{◌≡◌};
ghost use Rattle.pc_base.specs.declared.ask_fault.AskFault.TheVariants as fault;

use crate::failure::Memory;
use crate::refusal::Refusal;

/// Why a wish or a question has no answer.
#[derive(Clone, Copy)]
pub enum AskFault {
    /// It is refused.
    Refused(Refusal),
    /// Want of memory.
    Memory,
}

impl From<Memory> for AskFault {
    ghost from_gives = { λ _ given. given ≡ fault.Memory };

    fn from(_memory: Memory) -> AskFault {
        AskFault::Memory
    }
}
