//! What is wished for of the post office.

use pc_base::Name;
use pc_message::Message;

/// A change that is asked for.
#[derive(Drop)]
pub enum OfficeWish {
    /// To make a user.
    AddUser {
        user: Name,
    },
    /// To make a board.
    AddBoard {
        board: Name,
    },
    /// To take an address for a mailbox of a user.
    TakeAddress {
        address: Name,
        user: Name,
        mailbox: Name,
    },
    /// To give up an address of a user.
    DropAddress {
        address: Name,
        user: Name,
    },
    /// To send a message to those whom it names.
    Accept {
        message: Message,
    },
}
