//! Why areas aren't made, opened or written.

ghost use Rattle.std.specs.Prelude.{◌≡◌};
ghost use Rattle.pc_log.specs.declared.fault.LogFault.TheVariants.{Device, Memory};

use pc_base::{Failed, Memory};
use pc_disk::StepFault;
use std::alloc::{AllocError, AllocFailed};

/// Why an area couldn't be made or opened.
#[derive(Clone, Copy, Debug, PartialEq, Eq)]
pub enum LogFault {
    /// A call of the disk failed.
    Device,
    /// A field of a made area is wrong or cut off, from this byte of the area on.
    Malformed { place: u64 },
    /// Want of memory.
    Memory,
}

/// The device call of an append that failed, 1 to 4. None followed it.
#[derive(Clone, Copy, Debug, PartialEq, Eq)]
pub struct AppendFault {
    pub call: u8,
}

impl From<Failed> for LogFault {
    ghost from_gives = { λ _ fault. fault ≡ Device };

    fn from(_failed: Failed) -> LogFault {
        LogFault::Device
    }
}

impl From<StepFault> for LogFault {
    ghost from_gives = { λ _ fault. fault ≡ Device };

    fn from(_fault: StepFault) -> LogFault {
        LogFault::Device
    }
}

impl From<Memory> for LogFault {
    ghost from_gives = { λ _ fault. fault ≡ Memory };

    fn from(_memory: Memory) -> LogFault {
        LogFault::Memory
    }
}

impl From<AllocError> for LogFault {
    ghost from_gives = { λ _ fault. fault ≡ Memory };

    fn from(_error: AllocError) -> LogFault {
        LogFault::Memory
    }
}

impl<T: Drop> From<AllocFailed<T>> for LogFault {
    ghost from_gives = { λ _ fault. fault ≡ Memory };

    fn from(_error: AllocFailed<T>) -> LogFault {
        LogFault::Memory
    }
}
