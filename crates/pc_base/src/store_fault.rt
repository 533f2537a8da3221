//! Why stores aren't made, opened or changed.

ghost use Rattle.std.specs.Prelude.{◌≡◌};
ghost use Rattle.pc_base.specs.declared.store_fault.StoreFault.TheVariants as store;
ghost use Rattle.pc_base.specs.declared.store_fault.CommitFault.TheVariants as commit;

use crate::failure::Memory;
use std::alloc::{AllocError, AllocFailed};

/// Why a store couldn't be made or opened.
#[derive(Clone, Copy, Debug, PartialEq, Eq)]
pub enum StoreFault {
    /// No area is made.
    NotMade,
    /// A call of the disk failed.
    Device,
    /// The bytes of an area aren't those of a store, from this place on.
    Malformed { area: u8, place: u64 },
    /// Want of memory.
    Memory,
}

/// Why an entry wasn't made.
#[derive(Clone, Copy, Debug, PartialEq, Eq)]
pub enum CommitFault {
    /// The entries would be too many, or have too many bytes, or their numbers are used up.
    Full,
    /// A call of the disk failed. The store is broken.
    Device,
    /// Want of memory.
    Memory,
}

impl From<Memory> for StoreFault {
    ghost from_gives = { λ _ fault. fault ≡ store.Memory };

    fn from(_memory: Memory) -> StoreFault {
        StoreFault::Memory
    }
}

impl<T: Drop> From<AllocFailed<T>> for StoreFault {
    ghost from_gives = { λ _ fault. fault ≡ store.Memory };

    fn from(_error: AllocFailed<T>) -> StoreFault {
        StoreFault::Memory
    }
}

impl From<Memory> for CommitFault {
    ghost from_gives = { λ _ fault. fault ≡ commit.Memory };

    fn from(_memory: Memory) -> CommitFault {
        CommitFault::Memory
    }
}

impl From<AllocError> for CommitFault {
    ghost from_gives = { λ _ fault. fault ≡ commit.Memory };

    fn from(_error: AllocError) -> CommitFault {
        CommitFault::Memory
    }
}
