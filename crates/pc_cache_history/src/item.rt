//! What waits in a cache for the repository.

ghost use Rattle.std.specs.Prelude.{◌≡◌, ◌<◌};
ghost use Rattle.pc_cache_history.specs.Record.{is_for};
ghost use Rattle.pc_cache_history.specs.View.{flags_with_item};

use pc_base::Name;
use pc_message::with_flag;

/// A change of a flag that was queued and isn't answered.
#[derive(Clone, Copy)]
pub struct Item {
    pub number: u64,
    pub mailbox: Name,
    pub uid: u32,
    pub flag: u8,
    pub on: bool,
}

impl Item {
    /// Whether the change is of this message.
    pub fn is_for(&self, mailbox: &Name, uid: u32) -> bool
        ensures { result ≡ is_for mailbox.now uid self.now }
    {
        self.mailbox == *mailbox && self.uid == uid
    }

    /// The flags of a message with this change laid over them, if it is of this message.
    pub fn laid_over(&self, mailbox: &Name, uid: u32, flags: u16) -> u16
        requires { self.now.flag < 16 }
        ensures { result ≡ flags_with_item mailbox.now uid flags self.now }
    {
        if self.is_for(mailbox, uid) {
            with_flag(flags, self.flag, self.on)
        } else {
            flags
        }
    }
}
