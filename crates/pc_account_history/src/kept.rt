//! What an account keeps of a message, and of a change that a client hasn't taken yet.

use pc_message::Message;

/// A message that lives in a mailbox.
#[derive(Drop)]
pub struct Kept {
    pub uid: u32,
    /// Flag 0 is the lowest bit.
    pub flags: u16,
    pub message: Message,
}

/// A uid on the update list of a client, with the number of the entry that last touched it.
#[derive(Clone, Copy, Debug, PartialEq, Eq)]
pub struct Listed {
    pub uid: u32,
    pub stamp: u64,
}
