//! Questions to an account, and their answers.

use pc_base::{List, Name};
use pc_mailbox::Shown;
use pc_message::{Changes, Message};

/// What an account is asked.
#[derive(Clone, Copy)]
pub enum Question {
    /// Its clients, in order of making.
    Clients,
    /// Its mailboxes, in listing order.
    Mailboxes,
    /// Whether a mailbox is there.
    Alive {
        mailbox: Name,
    },
    /// The descriptors of the messages from one uid to another, both among them.
    Descriptors {
        mailbox: Name,
        low: u32,
        high: u32,
    },
    /// The first so many changes that a client hasn't taken yet.
    Changed {
        client: Name,
        mailbox: Name,
        count: u32,
    },
    /// A message.
    Letter {
        mailbox: Name,
        uid: u32,
    },
    /// The subscriptions, in order of making.
    Subscriptions,
}

/// A client as a list shows it.
#[derive(Clone, Copy)]
pub struct ClientRow {
    pub name: Name,
    /// The number of the entry that made it.
    pub birth: u64,
}

/// A mailbox as a list shows it.
#[derive(Clone, Copy)]
pub struct MailboxRow {
    pub name: Name,
    /// How many messages live in it.
    pub live: u32,
    /// The last uid given in it, or 0.
    pub highest: u32,
}

/// A subscription as a list shows it.
#[derive(Clone, Copy)]
pub struct SubscriptionRow {
    pub board: Name,
    /// The last uid of the board that was marked as read, or 0.
    pub mark: u32,
}

/// Clients as a list shows them.
pub type ClientRows = List<ClientRow>;

/// Mailboxes as a list shows them.
pub type MailboxRows = List<MailboxRow>;

/// Subscriptions as a list shows them.
pub type SubscriptionRows = List<SubscriptionRow>;

/// What an account answers.
#[derive(Drop)]
pub enum Answer {
    /// The clients, in order of making.
    Clients(ClientRows),
    /// The mailboxes, in listing order.
    Mailboxes(MailboxRows),
    /// The mailbox is there.
    Yes,
    /// Descriptors by rising uid.
    Descriptors(Changes),
    /// The changes, and the uids with the stamps that they have.
    Changed(Changes, Shown),
    /// A copy of the message.
    Letter(Message),
    /// The subscriptions, in order of making.
    Subscriptions(SubscriptionRows),
}
