//! The entries of an account's journal.

ghost use Rattle.std.specs.Prelude.{◌≡◌, ◌≤◌, length};
ghost use Rattle.pc_account_history.specs.Entry.{tag_of, word_of};

use pc_base::{Name, Uids};
use pc_message::Letters;

/// One change of an account.
#[derive(Drop)]
pub enum Entry {
    /// A mailbox is made, or made again.
    MakeMailbox {
        mailbox: Name,
    },
    /// A mailbox is deleted with its messages.
    DropMailbox {
        mailbox: Name,
    },
    /// A flag of a message is set to a value.
    Flag {
        mailbox: Name,
        uid: u32,
        flag: u8,
        on: bool,
    },
    /// The messages whose flag 0 is on are taken away.
    Expunge {
        mailbox: Name,
    },
    /// A message is copied into a mailbox.
    Copy {
        mailbox: Name,
        uid: u32,
        target: Name,
    },
    /// A client is made, or made anew.
    MakeClient {
        client: Name,
    },
    /// A client is taken away.
    DropClient {
        client: Name,
    },
    /// All that lives is put on the lists of a client.
    ResetClient {
        client: Name,
    },
    /// All that lives in a mailbox is put on the list of a client.
    ResetMailbox {
        client: Name,
        mailbox: Name,
    },
    /// A client has taken these changes.
    Forget {
        client: Name,
        mailbox: Name,
        uids: Uids,
    },
    /// Mails are taken from the office, up to the one with this number.
    Pull {
        upto: u64,
        letters: Letters,
    },
    /// The digest of the password.
    Password {
        digest: [u8; 32],
    },
    /// A board is subscribed to.
    Subscribe {
        board: Name,
    },
    /// A subscription ends.
    Unsubscribe {
        board: Name,
    },
    /// The last uid of a board that was read.
    Mark {
        board: Name,
        uid: u32,
    },
}

impl Entry {
    /// The number that stands for this kind of entry in a journal.
    pub fn tag(&self) -> u8
        ensures { result ≡ tag_of self.now }
    {
        match self {
            Entry::MakeMailbox { .. } => 1,
            Entry::DropMailbox { .. } => 2,
            Entry::Flag { .. } => 3,
            Entry::Expunge { .. } => 4,
            Entry::Copy { .. } => 5,
            Entry::MakeClient { .. } => 6,
            Entry::DropClient { .. } => 7,
            Entry::ResetClient { .. } => 8,
            Entry::ResetMailbox { .. } => 9,
            Entry::Forget { .. } => 10,
            Entry::Pull { .. } => 11,
            Entry::Password { .. } => 12,
            Entry::Subscribe { .. } => 13,
            Entry::Unsubscribe { .. } => 14,
            Entry::Mark { .. } => 15,
        }
    }

    /// The word that names this kind of entry where a history is shown.
    pub fn word(&self) -> &'static [u8]
        ensures { result.now ≡ word_of self.now }
    {
        match self {
            Entry::MakeMailbox { .. } => b"MakeMailbox",
            Entry::DropMailbox { .. } => b"DropMailbox",
            Entry::Flag { .. } => b"Flag",
            Entry::Expunge { .. } => b"Expunge",
            Entry::Copy { .. } => b"Copy",
            Entry::MakeClient { .. } => b"MakeClient",
            Entry::DropClient { .. } => b"DropClient",
            Entry::ResetClient { .. } => b"ResetClient",
            Entry::ResetMailbox { .. } => b"ResetMailbox",
            Entry::Forget { .. } => b"Forget",
            Entry::Pull { .. } => b"Pull",
            Entry::Password { .. } => b"Password",
            Entry::Subscribe { .. } => b"Subscribe",
            Entry::Unsubscribe { .. } => b"Unsubscribe",
            Entry::Mark { .. } => b"Mark",
        }
    }
}
