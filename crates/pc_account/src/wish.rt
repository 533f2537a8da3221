//! What is wished for.

ghost use Rattle.std.specs.Prelude.{◌≡◌, IsTrue};
ghost use Rattle.pc_account_history.specs.declared.entry.Entry.TheVariants as entry;
ghost use Rattle.pc_account_history.specs.Known.{Known};
ghost use Rattle.pc_account_spelling.specs.EntryForm.{entry_fits};
ghost use Rattle.pc_account.specs.Plan.{entry_of, IsAtOnce};

use pc_account_history::Entry;
use pc_base::{Name, Room};
use pc_mailbox::Shown;
use pc_message::Mails;

/// A change that is asked for.
#[derive(Drop)]
pub enum Wish {
    /// To make a mailbox.
    MakeMailbox {
        mailbox: Name,
    },
    /// To delete a mailbox with its messages.
    DropMailbox {
        mailbox: Name,
    },
    /// To set a flag of a message, which is at most 15.
    Flag {
        mailbox: Name,
        uid: u32,
        flag: u8,
        on: bool,
    },
    /// To take away the messages whose flag 0 is on.
    Expunge {
        mailbox: Name,
    },
    /// To copy a message into a mailbox.
    Copy {
        mailbox: Name,
        uid: u32,
        target: Name,
    },
    /// To make a client.
    MakeClient {
        client: Name,
    },
    /// To take a client away.
    DropClient {
        client: Name,
    },
    /// To put all that lives on the lists of a client.
    ResetClient {
        client: Name,
    },
    /// To put all that lives in a mailbox on the list of a client.
    ResetMailbox {
        client: Name,
        mailbox: Name,
    },
    /// To take the changes from one uid to another off a client's list, as far as they are still
    /// those that it was shown.
    Forget {
        client: Name,
        mailbox: Name,
        low: u32,
        high: u32,
        shown: Shown,
    },
    /// To take as many of these mails as there is room for, from the first on: at most 64, whose
    /// numbers rise and are past the last mail that was taken. The room is that of the journal.
    Take {
        mails: Mails,
        room: Room,
    },
    /// To set the password with this digest.
    Password {
        digest: [u8; 32],
    },
    /// To subscribe to a board.
    Subscribe {
        board: Name,
    },
    /// To end a subscription.
    Unsubscribe {
        board: Name,
    },
    /// To note the last uid of a board that was read.
    Mark {
        board: Name,
        uid: u32,
    },
}

impl Wish {
    /// The entry of a wish that is settled without memory, where nothing stands against it. It fits
    /// its fields.
    pub(crate) fn entry(&self) -> Entry
        requires { IsAtOnce self.now }
        ensures entry { (k : Known) → result ≡ entry_of k self.now }
        ensures fits { IsTrue (entry_fits result) }
    {
        match self {
            Wish::MakeMailbox { mailbox } => Entry::MakeMailbox {
                mailbox: mailbox.copy(),
            },
            Wish::DropMailbox { mailbox } => Entry::DropMailbox {
                mailbox: mailbox.copy(),
            },
            Wish::Flag {
                mailbox,
                uid,
                flag,
                on,
            } => Entry::Flag {
                mailbox: mailbox.copy(),
                uid: *uid,
                flag: *flag,
                on: *on,
            },
            Wish::Expunge { mailbox } => Entry::Expunge {
                mailbox: mailbox.copy(),
            },
            Wish::Copy {
                mailbox,
                uid,
                target,
            } => Entry::Copy {
                mailbox: mailbox.copy(),
                uid: *uid,
                target: target.copy(),
            },
            Wish::MakeClient { client } => Entry::MakeClient {
                client: client.copy(),
            },
            Wish::DropClient { client } => Entry::DropClient {
                client: client.copy(),
            },
            Wish::ResetClient { client } => Entry::ResetClient {
                client: client.copy(),
            },
            Wish::ResetMailbox { client, mailbox } => Entry::ResetMailbox {
                client: client.copy(),
                mailbox: mailbox.copy(),
            },
            Wish::Password { digest } => password(digest),
            Wish::Subscribe { board } => Entry::Subscribe {
                board: board.copy(),
            },
            Wish::Unsubscribe { board } => Entry::Unsubscribe {
                board: board.copy(),
            },
            Wish::Mark { board, uid } => Entry::Mark {
                board: board.copy(),
                uid: *uid,
            },
            Wish::Forget { .. } | Wish::Take { .. } => unreachable!(),
        }
    }
}

/// The entry that sets the password.
fn password(digest: &[u8; 32]) -> Entry
    ensures entry { result ≡ entry.Password digest.now }
    ensures fits { IsTrue (entry_fits result) }
{
    Entry::Password { digest: *digest }
}
