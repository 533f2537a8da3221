//! What is refused where several things are wrong, and what stands in the way of an entry.

use super::holds;
use super::player::plays;
use crate::{Account, Entry};
use pc_base::Name;
use std::alloc::Global;
use std::test::Fail;

#[test]
fn of_mailboxes_and_messages(rt: HostRuntime) -> Result<(), Fail> {
    plays(&rt, rt.alloc(), &MAILBOXES_AND_MESSAGES)
}

#[test]
fn of_clients(rt: HostRuntime) -> Result<(), Fail> {
    plays(&rt, rt.alloc(), &CLIENTS)
}

#[test]
fn of_pulls(rt: HostRuntime) -> Result<(), Fail> {
    plays(&rt, rt.alloc(), &PULLS)
}

/// There is no flag 16, whatever lives.
#[test]
fn of_a_flag_past_the_last(rt: HostRuntime) -> Result<(), Fail> {
    let mailbox = Name::read(b"inbox").ok_or("a name")?;
    holds(&rt, "flag 16", !allows_flag(rt.alloc(), mailbox, 16)?);
    Ok(())
}

/// Whether a new account lets this flag of message 1 be set.
fn allows_flag(alloc: Global, mailbox: Name, flag: u8) -> Result<bool, Fail> {
    let account = Account::empty(alloc)?;
    Ok(account.allows(&Entry::Flag {
        mailbox,
        uid: 1,
        flag,
        on: true,
    }))
}

/// The mailbox comes before the message, and the message before the mailbox that it is copied to.
static MAILBOXES_AND_MESSAGES: [(&str, &str); 26] = [
    ("DropMailbox inbox", "409 No such mailbox"),
    ("Expunge inbox", "409 No such mailbox"),
    ("Flag inbox 1 1 on", "409 No such mailbox"),
    ("Flag inbox 1 1 off", "409 No such mailbox"),
    ("Copy inbox 1 inbox", "409 No such mailbox"),
    ("Alive inbox", "409 No such mailbox"),
    ("Descriptors inbox 2 1", "409 No such mailbox"),
    ("Letter inbox 1", "409 No such mailbox"),
    ("MakeMailbox inbox", "MakeMailbox"),
    ("MakeMailbox inbox", "410 Mailbox exists"),
    ("DropMailbox inbox", "422 Read only"),
    ("DropMailbox work", "409 No such mailbox"),
    ("Alive inbox", "yes"),
    ("Expunge inbox", "none"),
    ("Flag inbox 1 1 off", "412 No such message"),
    ("Copy inbox 1 work", "412 No such message"),
    ("Copy work 1 inbox", "409 No such mailbox"),
    ("Pull 1 1 9 inbox", "Pull"),
    ("Copy inbox 1 work", "409 No such mailbox"),
    ("Copy inbox 0 work", "412 No such message"),
    ("Copy inbox 2 inbox", "412 No such message"),
    ("Flag inbox 1 1 off", "none"),
    ("MakeMailbox work", "MakeMailbox"),
    ("Copy inbox 1 work", "Copy"),
    ("Mailboxes", "inbox 1 1;work 1 1;"),
    ("Next", "5"),
];

/// The client comes before the mailbox.
static CLIENTS: [(&str, &str); 17] = [
    ("DropClient ws1", "406 No such client"),
    ("ResetClient ws1", "406 No such client"),
    ("ResetMailbox ws1 inbox", "406 No such client"),
    ("Forget ws1 inbox 1 9", "406 No such client"),
    ("Changed ws1 inbox 256", "406 No such client"),
    ("MakeClient ws1", "MakeClient"),
    ("MakeClient ws1", "423 Client exists"),
    ("ResetMailbox ws1 inbox", "409 No such mailbox"),
    ("Forget ws1 inbox 1 9", "409 No such mailbox"),
    ("Changed ws1 inbox 256", "409 No such mailbox"),
    ("MakeMailbox inbox", "MakeMailbox"),
    ("ResetMailbox ws2 inbox", "406 No such client"),
    ("ResetMailbox ws1 inbox", "ResetMailbox"),
    ("ResetClient ws1", "ResetClient"),
    ("DropClient ws1", "DropClient"),
    ("DropClient ws1", "406 No such client"),
    ("Next", "6"),
];

/// A pull has letters, at most 64, for mailboxes that live, and a number past the last one.
static PULLS: [(&str, &str); 13] = [
    ("MakeMailbox inbox", "MakeMailbox"),
    ("Pull 1 0 9 inbox", "not allowed"),
    ("Pull 1 65 9 inbox", "not allowed"),
    ("Pull 1 1 9 inbox work", "not allowed"),
    ("Pull 0 1 9 inbox", "not allowed"),
    ("Pull 7 64 9 inbox", "Pull"),
    ("Pulled", "7"),
    ("Pull 7 1 9 inbox", "not allowed"),
    ("Pull 6 1 9 inbox", "not allowed"),
    ("Pull 8 1 9 inbox", "Pull"),
    ("Pulled", "8"),
    ("Mailboxes", "inbox 65 65;"),
    ("Next", "4"),
];
