//! How much an account may have.

/// Clients of an account.
pub const MOST_CLIENTS: usize = 16;

/// Mailbox names, deleted ones among them.
pub const MOST_MAILBOXES: usize = 64;

/// Subscriptions of an account.
pub const MOST_SUBSCRIPTIONS: usize = 64;

/// Uids given under one mailbox name.
pub const MOST_UIDS: u32 = 1_000_000_000;

/// Messages that live in one mailbox.
pub const MOST_MESSAGES: usize = 4_096;

/// The weight of all messages that live in an account, each its size and 256 bytes.
pub const MOST_WEIGHT: u32 = 16_777_216;

/// Changes on all update lists of an account.
pub const MOST_CHANGES: usize = 1_048_576;
