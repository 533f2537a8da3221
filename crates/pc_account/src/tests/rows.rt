//! Accounts of several clients, entry by entry: what each client has listed, and what it is told.

use super::player::plays;
use std::test::Fail;

#[test]
fn a_flag_between(rt: HostRuntime) -> Result<(), Fail> {
    plays(&rt, rt.alloc(), &A_FLAG_BETWEEN)
}

#[test]
fn an_expunge_from_elsewhere(rt: HostRuntime) -> Result<(), Fail> {
    plays(&rt, rt.alloc(), &AN_EXPUNGE_FROM_ELSEWHERE)
}

#[test]
fn a_flag_that_is_sent_again(rt: HostRuntime) -> Result<(), Fail> {
    plays(&rt, rt.alloc(), &A_FLAG_THAT_IS_SENT_AGAIN)
}

#[test]
fn a_mailbox_made_again(rt: HostRuntime) -> Result<(), Fail> {
    plays(&rt, rt.alloc(), &A_MAILBOX_MADE_AGAIN)
}

#[test]
fn a_client_made_again(rt: HostRuntime) -> Result<(), Fail> {
    plays(&rt, rt.alloc(), &A_CLIENT_MADE_AGAIN)
}

#[test]
fn what_each_entry_touches(rt: HostRuntime) -> Result<(), Fail> {
    plays(&rt, rt.alloc(), &TOUCHES)?;
    plays(&rt, rt.alloc(), &FORGETS)
}

#[test]
fn copies_and_descriptors(rt: HostRuntime) -> Result<(), Fail> {
    plays(&rt, rt.alloc(), &COPIES)
}

#[test]
fn boards_and_passwords(rt: HostRuntime) -> Result<(), Fail> {
    plays(&rt, rt.alloc(), &BOARDS_AND_PASSWORDS)
}

/// A client forgets what it was shown, but for a message whose flag was set in between.
static A_FLAG_BETWEEN: [(&str, &str); 22] = [
    ("Password 1", "Password"),
    ("MakeMailbox inbox", "MakeMailbox"),
    ("MakeClient ws1", "MakeClient"),
    ("MakeClient ws2", "MakeClient"),
    ("Clients", "ws1 3;ws2 4;"),
    ("Pull 5 5 9 inbox", "Pull"),
    ("Listed ws1 inbox", "1 5;2 5;3 5;4 5;5 5;"),
    ("Listed ws2 inbox", "1 5;2 5;3 5;4 5;5 5;"),
    ("Flag inbox 5 1 on", "Flag"),
    ("Listed ws1 inbox", "1 5;2 5;3 5;4 5;5 6;"),
    ("Listed ws2 inbox", "1 5;2 5;3 5;4 5;5 6;"),
    ("Forget ws1 inbox 1 9 1 5 2 5 3 5 4 5 5 5", "Forget"),
    ("Listed ws1 inbox", "5 6;"),
    ("Listed ws2 inbox", "1 5;2 5;3 5;4 5;5 6;"),
    ("Flag inbox 5 1 on", "none"),
    ("Flag inbox 6 1 on", "412 No such message"),
    ("Forget ws1 inbox 1 9 1 5 2 5 3 5 4 5 5 5", "none"),
    ("Listed ws1 inbox", "5 6;"),
    ("Listed ws2 inbox", "1 5;2 5;3 5;4 5;5 6;"),
    ("Changed ws1 inbox 256", "5 2 9 1;"),
    ("Changed ws2 inbox 2", "1 0 9 1;2 0 9 1;"),
    ("Next", "8"),
];

/// Another client deletes a message that the first one has taken already.
static AN_EXPUNGE_FROM_ELSEWHERE: [(&str, &str); 21] = [
    ("Password 1", "Password"),
    ("MakeMailbox inbox", "MakeMailbox"),
    ("MakeClient ws1", "MakeClient"),
    ("ResetClient ws1", "ResetClient"),
    ("Pull 1 1 32 inbox", "Pull"),
    ("Changed ws1 inbox 256", "1 0 32 1;"),
    ("Forget ws1 inbox 1 1 1 5", "Forget"),
    ("Listed ws1 inbox", ""),
    ("MakeClient other", "MakeClient"),
    ("Listed ws1 inbox", ""),
    ("Listed other inbox", "1 7;"),
    ("Flag inbox 1 0 on", "Flag"),
    ("Listed ws1 inbox", "1 8;"),
    ("Expunge inbox", "Expunge"),
    ("Listed ws1 inbox", "1 9;"),
    ("Flag inbox 1 1 on", "412 No such message"),
    ("Changed ws1 inbox 256", "1 EXPUNGED;"),
    ("Forget ws1 inbox 1 1 1 9", "Forget"),
    ("Listed ws1 inbox", ""),
    ("Listed other inbox", "1 9;"),
    ("Next", "11"),
];

/// A client sends what it isn't sure of again; each change that comes through is listed for itself too.
static A_FLAG_THAT_IS_SENT_AGAIN: [(&str, &str); 17] = [
    ("Password 1", "Password"),
    ("MakeMailbox inbox", "MakeMailbox"),
    ("MakeClient w1", "MakeClient"),
    ("ResetClient w1", "ResetClient"),
    ("Pull 1 1 32 inbox", "Pull"),
    ("Forget w1 inbox 1 1 1 5", "Forget"),
    ("Flag inbox 1 1 on", "Flag"),
    ("Flag inbox 1 1 on", "none"),
    ("Listed w1 inbox", "1 7;"),
    ("Forget w1 inbox 1 1 1 7", "Forget"),
    ("Flag inbox 1 1 off", "Flag"),
    ("Flag inbox 1 1 on", "Flag"),
    ("Listed w1 inbox", "1 10;"),
    ("Forget w1 inbox 1 1 1 9", "none"),
    ("Forget w1 inbox 1 1 1 10", "Forget"),
    ("Descriptors inbox 1 1000", "1 2 32 1;"),
    ("Next", "12"),
];

/// A mailbox that is made again goes on with its uids and lists, and stands last.
static A_MAILBOX_MADE_AGAIN: [(&str, &str); 20] = [
    ("Password 1", "Password"),
    ("MakeMailbox inbox", "MakeMailbox"),
    ("MakeMailbox work", "MakeMailbox"),
    ("MakeClient ws2", "MakeClient"),
    ("Pull 3 3 9 work", "Pull"),
    ("DropMailbox work", "DropMailbox"),
    ("Alive work", "409 No such mailbox"),
    ("Changed ws2 work 256", "409 No such mailbox"),
    ("MakeMailbox work", "MakeMailbox"),
    ("Mailboxes", "inbox 0 0;work 0 3;"),
    ("Pull 4 1 9 work", "Pull"),
    ("Listed ws2 work", "1 6;2 6;3 6;4 8;"),
    (
        "Changed ws2 work 256",
        "1 EXPUNGED;2 EXPUNGED;3 EXPUNGED;4 0 9 1;",
    ),
    ("Mailboxes", "inbox 0 0;work 1 4;"),
    ("MakeMailbox box", "MakeMailbox"),
    ("Mailboxes", "inbox 0 0;work 1 4;box 0 0;"),
    ("DropMailbox work", "DropMailbox"),
    ("Mailboxes", "inbox 0 0;box 0 0;"),
    ("MakeMailbox work", "MakeMailbox"),
    ("Mailboxes", "inbox 0 0;box 0 0;work 0 4;"),
];

/// A client that is made again begins with all that lives, and stands last.
static A_CLIENT_MADE_AGAIN: [(&str, &str); 16] = [
    ("Password 1", "Password"),
    ("MakeMailbox inbox", "MakeMailbox"),
    ("MakeClient ws1", "MakeClient"),
    ("ResetClient ws1", "ResetClient"),
    ("Pull 1 1 32 inbox", "Pull"),
    ("Forget ws1 inbox 1 1 1 5", "Forget"),
    ("DropClient ws1", "DropClient"),
    ("Birth ws1", "0"),
    ("Changed ws1 inbox 256", "406 No such client"),
    ("MakeClient ws1", "MakeClient"),
    ("Birth ws1", "8"),
    ("Listed ws1 inbox", "1 8;"),
    ("ResetClient ws1", "ResetClient"),
    ("Listed ws1 inbox", "1 9;"),
    ("Forget ws1 inbox 1 1 1 9", "Forget"),
    ("Next", "11"),
];

/// Each entry that touches messages, and for whom.
static TOUCHES: [(&str, &str); 40] = [
    ("MakeMailbox inbox", "MakeMailbox"),
    ("MakeMailbox work", "MakeMailbox"),
    ("MakeClient a", "MakeClient"),
    ("Pull 2 2 9 inbox", "Pull"),
    ("MakeClient b", "MakeClient"),
    ("Listed a inbox", "1 4;2 4;"),
    ("Listed b inbox", "1 5;2 5;"),
    ("Copy inbox 1 work", "Copy"),
    ("Listed a inbox", "1 4;2 4;"),
    ("Listed a work", "1 6;"),
    ("Listed b work", "1 6;"),
    ("Flag inbox 1 3 on", "Flag"),
    ("Listed a inbox", "2 4;1 7;"),
    ("Listed b inbox", "2 5;1 7;"),
    ("ResetMailbox a inbox", "ResetMailbox"),
    ("Listed a inbox", "1 8;2 8;"),
    ("Listed b inbox", "2 5;1 7;"),
    ("Listed a work", "1 6;"),
    ("ResetClient b", "ResetClient"),
    ("Listed a inbox", "1 8;2 8;"),
    ("Listed b inbox", "1 9;2 9;"),
    ("Listed b work", "1 9;"),
    ("Flag inbox 1 0 on", "Flag"),
    ("Expunge inbox", "Expunge"),
    ("Listed a inbox", "2 8;1 11;"),
    ("Listed b inbox", "2 9;1 11;"),
    ("ResetClient a", "ResetClient"),
    ("Listed a inbox", "1 11;2 12;"),
    ("Listed a work", "1 12;"),
    ("DropMailbox work", "DropMailbox"),
    ("MakeMailbox work", "MakeMailbox"),
    ("Listed a work", "1 13;"),
    ("Listed b work", "1 13;"),
    ("MakeClient c", "MakeClient"),
    ("Listed c inbox", "2 15;"),
    ("Listed c work", ""),
    ("DropClient b", "DropClient"),
    ("MakeClient b", "MakeClient"),
    ("Listed b inbox", "2 17;"),
    ("Listed b work", ""),
];

/// What a client takes of what it was shown: in range, as it was shown, once, and for itself alone.
static FORGETS: [(&str, &str); 12] = [
    ("MakeMailbox inbox", "MakeMailbox"),
    ("MakeClient a", "MakeClient"),
    ("MakeClient b", "MakeClient"),
    ("Pull 4 4 9 inbox", "Pull"),
    ("Flag inbox 2 5 on", "Flag"),
    ("Forget a inbox 2 3", "none"),
    ("Forget a inbox 3 2 2 5 3 4", "none"),
    ("Forget a inbox 2 3 4 4 3 4 2 4 3 4", "Forget"),
    ("Listed a inbox", "1 4;4 4;2 5;"),
    ("Listed b inbox", "1 4;3 4;4 4;2 5;"),
    ("Forget a inbox 0 4294967295 9 4 4 4 2 5 4 4", "Forget"),
    ("Listed a inbox", "1 4;"),
];

/// A copy has the flags of the message but for flag 0; descriptors come by rising uid.
static COPIES: [(&str, &str); 18] = [
    ("MakeMailbox inbox", "MakeMailbox"),
    ("Pull 1 1 9 inbox", "Pull"),
    ("Pull 2 1 2000 inbox", "Pull"),
    ("Flag inbox 1 0 on", "Flag"),
    ("Flag inbox 1 15 on", "Flag"),
    ("Copy inbox 1 inbox", "Copy"),
    (
        "Descriptors inbox 1 3",
        "1 32769 9 1;2 0 2000 2;3 32768 9 1;",
    ),
    ("Descriptors inbox 2 2", "2 0 2000 2;"),
    ("Descriptors inbox 3 2", ""),
    ("Descriptors inbox 4 4294967295", ""),
    ("Letter inbox 2", "2000 bytes"),
    ("Letter inbox 4", "412 No such message"),
    ("Letter inbox 0", "412 No such message"),
    ("Expunge inbox", "Expunge"),
    ("Expunge inbox", "none"),
    ("Descriptors inbox 0 9", "2 0 2000 2;3 32768 9 1;"),
    ("Copy inbox 3 inbox", "Copy"),
    ("Mailboxes", "inbox 3 4;"),
];

static BOARDS_AND_PASSWORDS: [(&str, &str); 21] = [
    ("PasswordIs 0", "0"),
    ("Password 7", "Password"),
    ("Password 7", "none"),
    ("PasswordIs 7", "1"),
    ("PasswordIs 8", "0"),
    ("Mark news 0", "420 Not subscribed"),
    ("Unsubscribe news", "420 Not subscribed"),
    ("Subscribe news", "Subscribe"),
    ("Subscribe news", "421 Already subscribed"),
    ("Subscribe lists", "Subscribe"),
    ("Mark news 0", "none"),
    ("Mark news 2", "Mark"),
    ("Mark news 2", "none"),
    ("Subscriptions", "news 2;lists 0;"),
    ("Mark news 1", "Mark"),
    ("Unsubscribe news", "Unsubscribe"),
    ("Subscribe news", "Subscribe"),
    ("Subscriptions", "lists 0;news 0;"),
    ("Mailboxes", ""),
    ("Clients", ""),
    ("Next", "8"),
];
