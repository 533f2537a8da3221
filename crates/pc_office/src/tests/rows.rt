//! Small offices, step by step.

use super::player::plays;
use std::test::Fail;

#[test]
fn names_and_addresses(rt: HostRuntime) -> Result<(), Fail> {
    plays(&rt, rt.alloc(), &NAMES)
}

#[test]
fn mail_for_users_and_boards(rt: HostRuntime) -> Result<(), Fail> {
    plays(&rt, rt.alloc(), &MAIL)
}

#[test]
fn mail_that_is_pulled(rt: HostRuntime) -> Result<(), Fail> {
    plays(&rt, rt.alloc(), &PULLED)
}

#[test]
fn entries_that_are_not_allowed(rt: HostRuntime) -> Result<(), Fail> {
    plays(&rt, rt.alloc(), &ENTRIES)
}

/// Entries that aren't wished for, as they may be read from a journal.
const ENTRIES: [(&str, &str); 11] = [
    ("AddUser ann", "ok"),
    ("AddBoard news", "ok"),
    ("EntryDrop ann", "not allowed"),
    ("EntryDrop eve", "not allowed"),
    ("EntryTake eve eve", "not allowed"),
    ("EntryTake eve ann", "ok"),
    ("EntryDrop eve", "ok"),
    ("EntrySend", "not allowed"),
    ("EntrySend ann ann", "not allowed"),
    ("EntrySend ann eve", "not allowed"),
    ("EntrySend news ann", "ok"),
];

/// Users, boards and addresses share one space of names; a user's own name stays.
const NAMES: [(&str, &str); 29] = [
    ("Users", ""),
    ("Take a.one ann inbox", "414 No such address"),
    ("AddUser ann", "ok"),
    ("AddUser ann", "415 Address taken"),
    ("AddBoard ann", "415 Address taken"),
    ("AddBoard news", "ok"),
    ("AddBoard news", "415 Address taken"),
    ("AddUser news", "415 Address taken"),
    ("Take news ann inbox", "415 Address taken"),
    ("Take ann ann inbox", "415 Address taken"),
    ("Take news eve inbox", "414 No such address"),
    ("AddUser bob", "ok"),
    ("Users", "ann bob "),
    ("Boards", "news "),
    ("Addresses ann inbox", "ann "),
    ("Take a.one ann inbox", "ok"),
    ("Take a.two ann inbox", "ok"),
    ("Take a.work ann work", "ok"),
    ("AddUser a.one", "415 Address taken"),
    ("Addresses ann inbox", "ann a.one a.two "),
    ("Addresses ann work", "a.work "),
    ("Addresses eve work", ""),
    ("Drop bob ann", "414 No such address"),
    ("Drop ann ann", "414 No such address"),
    ("Drop a.one bob", "414 No such address"),
    ("Drop news ann", "414 No such address"),
    ("Drop a.one ann", "ok"),
    ("Take a.one ann inbox", "ok"),
    ("Addresses ann inbox", "ann a.two a.one "),
];

/// A user gets a mail once, in the mailbox of the first name that is its address.
const MAIL: [(&str, &str); 28] = [
    ("AddUser ann", "ok"),
    ("AddUser bob", "ok"),
    ("AddBoard news", "ok"),
    ("Board news", "0"),
    ("Board other", "none"),
    ("Send 1 bob, ann <ann@pcmail>, news", "ok"),
    ("Accepted", "1"),
    ("Waiting bob 0", "1 inbox "),
    ("Waiting ann 0", "1 inbox "),
    ("Board news", "1"),
    ("Send 1 bob, eve", "416 Unknown recipient eve"),
    (
        "Send 1 bob, Ann@elsewhere",
        "416 Unknown recipient ann@elsewhere",
    ),
    ("Send 1 eve, +", "416 Unknown recipient +"),
    ("Send 1", "416 Unknown recipient -"),
    ("Accepted", "1"),
    ("Take a.work ann work", "ok"),
    ("Send 0 a.work, ann", "ok"),
    ("Send 0 ann, A.Work", "ok"),
    ("Send 0 news", "ok"),
    ("Waiting ann 0", "1 inbox 2 work 3 inbox "),
    ("Waiting ann 1", "2 work 3 inbox "),
    ("Waiting ann 3", ""),
    ("Board news", "2"),
    ("Drop a.work ann", "ok"),
    ("Send 0 a.work", "416 Unknown recipient a.work"),
    ("Waiting ann 1", "2 work 3 inbox "),
    ("Waiting eve 0", ""),
    ("Accepted", "4"),
];

/// What one user has pulled waits on for the others.
const PULLED: [(&str, &str); 21] = [
    ("AddUser ann", "ok"),
    ("AddUser bob", "ok"),
    ("Send 0 ann, bob", "ok"),
    ("Send 0 ann", "ok"),
    ("Send 0 bob", "ok"),
    ("Noted ann", "0"),
    ("Pulled ann 0", "not allowed"),
    ("Pulled ann 4", "not allowed"),
    ("Pulled eve 1", "not allowed"),
    ("Pulled ann 1", "ok"),
    ("Pulled ann 1", "not allowed"),
    ("Noted ann", "1"),
    ("Noted bob", "0"),
    ("Waiting ann 0", "2 inbox "),
    ("Waiting bob 0", "1 inbox 3 inbox "),
    ("Pulled ann 3", "ok"),
    ("Waiting ann 0", ""),
    ("Waiting bob 0", "1 inbox 3 inbox "),
    ("Pulled bob 3", "ok"),
    ("Waiting bob 0", ""),
    ("Accepted", "3"),
];
