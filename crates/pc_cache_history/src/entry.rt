//! The entries of a cache's journal.

ghost use Rattle.std.specs.Prelude.{◌≡◌};
ghost use Rattle.pc_cache_history.specs.Entry.{tag_of};

use pc_base::{Name, Names};
use pc_message::Changes;

/// One change of a cache.
#[derive(Drop)]
pub enum CacheEntry {
    /// The client has this birth now, and its copies are begun anew.
    Begin {
        birth: u64,
    },
    /// The repository lists everything anew for this client, and from now on changes are taken.
    Synced,
    /// These changes of a mailbox were taken.
    Took {
        mailbox: Name,
        changes: Changes,
    },
    /// Copies of these mailboxes are kept, and of no other.
    Kept {
        names: Names,
    },
    /// A flag is to be set to a value, once the repository can be asked.
    Queue {
        mailbox: Name,
        uid: u32,
        flag: u8,
        on: bool,
    },
    /// The queued change of this number was answered.
    Answered {
        number: u64,
    },
}

impl CacheEntry {
    /// The number that stands for this kind of entry in a journal.
    pub fn tag(&self) -> u8
        ensures { result ≡ tag_of self.now }
    {
        match self {
            CacheEntry::Begin { .. } => 1,
            CacheEntry::Synced => 2,
            CacheEntry::Took { .. } => 3,
            CacheEntry::Kept { .. } => 4,
            CacheEntry::Queue { .. } => 5,
            CacheEntry::Answered { .. } => 6,
        }
    }
}
