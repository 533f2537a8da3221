//! The entries of the office's journal.

ghost use Rattle.std.specs.Prelude.{◌≡◌};
ghost use Rattle.pc_office_history.specs.Entry.{tag_of};

use pc_base::{Name, Names};
use pc_message::Message;

/// One change of the post office.
#[derive(Drop)]
pub enum OfficeEntry {
    /// A user is made, whose name is an address of its own.
    AddUser {
        user: Name,
    },
    /// A board is made.
    AddBoard {
        board: Name,
    },
    /// A user takes an address for one of its mailboxes.
    TakeAddress {
        address: Name,
        user: Name,
        mailbox: Name,
    },
    /// An address is given up.
    DropAddress {
        address: Name,
    },
    /// A mail is accepted for those to whom these names belong.
    Accept {
        names: Names,
        message: Message,
    },
    /// A user has pulled its mail up to this number.
    Pulled {
        user: Name,
        number: u64,
    },
}

impl OfficeEntry {
    /// The number that stands for this kind of entry in a journal.
    pub fn tag(&self) -> u8
        ensures { result ≡ tag_of self.now }
    {
        match self {
            OfficeEntry::AddUser { .. } => 1,
            OfficeEntry::AddBoard { .. } => 2,
            OfficeEntry::TakeAddress { .. } => 3,
            OfficeEntry::DropAddress { .. } => 4,
            OfficeEntry::Accept { .. } => 5,
            OfficeEntry::Pulled { .. } => 6,
        }
    }
}
