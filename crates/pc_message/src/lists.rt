//! Lists of changes, mails and letters.

use crate::descriptor::Change;
use crate::message::Message;
use pc_base::{List, Name};

/// A list of changes.
pub type Changes = List<Change>;

/// A mail that waits for a user: its number and the mailbox that it is for.
#[derive(Drop)]
pub struct Mail {
    pub number: u64,
    pub mailbox: Name,
    pub message: Message,
}

/// A list of mails.
pub type Mails = List<Mail>;

/// Messages, each with the mailbox that it goes to.
pub type Letters = List<(Name, Message)>;
