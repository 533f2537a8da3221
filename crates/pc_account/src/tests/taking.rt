//! Which mails are taken: the longest front that fits.

use super::player::plays;
use std::test::Fail;

#[test]
fn where_mails_go(rt: HostRuntime) -> Result<(), Fail> {
    plays(&rt, rt.alloc(), &WHERE)
}

#[test]
fn room_of_the_journal(rt: HostRuntime) -> Result<(), Fail> {
    plays(&rt, rt.alloc(), &ROOM)
}

#[test]
fn sixty_four_mails(rt: HostRuntime) -> Result<(), Fail> {
    plays(&rt, rt.alloc(), &MANY)
}

/// A mail whose mailbox isn't live goes to inbox. Where inbox isn't live either, the front ends
/// before it, whatever comes behind.
static WHERE: [(&str, &str); 24] = [
    ("Take 9 9999", "none"),
    ("Take 9 9999 1 10 inbox", "none"),
    ("Take 9 9999 1 10 work", "none"),
    ("Next", "1"),
    ("MakeMailbox work", "MakeMailbox"),
    ("Take 9 9999 1 10 gone", "none"),
    ("Take 9 9999 1 10 inbox 1 10 work", "none"),
    ("Take 9 9999 1 10 work 1 10 gone 1 10 work", "Pull"),
    ("Pulled", "3"),
    ("Mailboxes", "work 1 1;"),
    ("MakeMailbox inbox", "MakeMailbox"),
    (
        "Take 9 9999 1 11 gone 1 12 work 1 13 inbox 1 14 gone",
        "Pull",
    ),
    ("Pulled", "15"),
    ("Descriptors inbox 1 9", "1 0 11 1;2 0 13 1;3 0 14 1;"),
    ("Descriptors work 1 9", "1 0 10 1;2 0 12 1;"),
    ("DropMailbox work", "DropMailbox"),
    ("Take 9 9999 1 15 work", "Pull"),
    ("Descriptors inbox 4 9", "4 0 15 1;"),
    ("Pulled", "18"),
    ("MakeMailbox work", "MakeMailbox"),
    ("Take 9 9999 1 16 work", "Pull"),
    ("Descriptors work 1 9", "3 0 16 1;"),
    ("Mailboxes", "inbox 4 4;work 1 3;"),
    ("Next", "9"),
];

/// In a journal a pull takes 11 bytes, and for each letter 5, those of the name of the mailbox that
/// it goes to, and those of the message. So one of 100 bytes to inbox takes 121, and two take 231.
static ROOM: [(&str, &str); 27] = [
    ("MakeMailbox inbox", "MakeMailbox"),
    ("MakeMailbox w", "MakeMailbox"),
    ("Take 0 9999 1 100 inbox", "none"),
    ("Take 1 0 1 100 inbox", "none"),
    ("Take 1 120 1 100 inbox", "none"),
    ("Pulled", "0"),
    ("Take 1 121 1 100 inbox", "Pull"),
    ("Pulled", "3"),
    ("Take 1 230 2 100 inbox", "Pull"),
    ("Pulled", "6"),
    ("Take 1 231 2 100 inbox", "Pull"),
    ("Pulled", "12"),
    ("Take 1 116 1 100 w", "none"),
    ("Take 1 117 1 100 w", "Pull"),
    ("Take 1 120 1 100 gone", "none"),
    ("Take 1 121 1 100 gone", "Pull"),
    ("Pulled", "18"),
    ("Take 1 330 1 100 inbox 1 200 inbox 1 2 w", "Pull"),
    ("Pulled", "21"),
    ("Take 1 338 1 200 inbox 1 100 inbox 1 2 w", "Pull"),
    ("Pulled", "27"),
    ("Take 1 16 1 0 w", "none"),
    ("Take 1 17 1 0 w", "Pull"),
    ("Take 1 2020 1 2000 inbox", "none"),
    ("Take 4294967295 2021 1 2000 inbox", "Pull"),
    ("Take 1 4294967295 1 2000 inbox", "Pull"),
    ("Mailboxes", "inbox 10 10;w 2 2;"),
];

/// 64 messages of 2 bytes to inbox take 779 bytes in a journal.
static MANY: [(&str, &str); 11] = [
    ("MakeMailbox inbox", "MakeMailbox"),
    ("Take 1 778 64 2 inbox", "Pull"),
    ("Pulled", "189"),
    ("Mailboxes", "inbox 63 63;"),
    ("Take 1 779 64 2 inbox", "Pull"),
    ("Pulled", "381"),
    ("Mailboxes", "inbox 127 127;"),
    ("Take 1 9999 32 2 inbox 32 2 gone", "Pull"),
    ("Pulled", "573"),
    ("Mailboxes", "inbox 191 191;"),
    ("Next", "5"),
];
