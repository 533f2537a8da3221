//! A limit at its number, and one past it.

use super::player::{each, goes_on, plays};
use crate::Account;
use std::alloc::Global;
use std::process::Abort;
use std::test::Fail;

#[test]
fn sixteen_clients(rt: HostRuntime) -> Result<(), Fail> {
    plays(&rt, rt.alloc(), &CLIENTS)
}

#[test]
fn sixty_four_mailboxes(rt: HostRuntime) -> Result<(), Fail> {
    let mut account = Account::empty(rt.alloc())?;
    meets_mailboxes(&rt, rt.alloc(), &mut account)
}

#[test]
fn sixty_four_subscriptions(rt: HostRuntime) -> Result<(), Fail> {
    let mut account = Account::empty(rt.alloc())?;
    meets_subscriptions(&rt, rt.alloc(), &mut account)
}

#[test]
fn the_last_uid(rt: HostRuntime) -> Result<(), Fail> {
    let mut account = nearly_out_of_uids(rt.alloc())?;
    goes_on(&rt, rt.alloc(), &mut account, &UIDS)
}

fn meets_mailboxes(rt: &impl Abort, alloc: Global, account: &mut Account) -> Result<(), Fail> {
    each(rt, alloc, account, "MakeMailbox", "box", 64)?;
    goes_on(rt, alloc, account, &MAILBOXES)
}

fn meets_subscriptions(rt: &impl Abort, alloc: Global, account: &mut Account) -> Result<(), Fail> {
    each(rt, alloc, account, "Subscribe", "news", 64)?;
    goes_on(rt, alloc, account, &SUBSCRIPTIONS)
}

/// The account of a record whose mailbox inbox has given 999,999,999 uids.
fn nearly_out_of_uids(alloc: Global) -> Result<Account, Fail> {
    let record = b"\0\0\0\0\0\0\0\0\0\0\0\0\x01\x05inbox\x01\x3b\x9a\xc9\xff\0\0\0\0\0\0\0\0";
    let Ok(mut account) = Account::load(alloc, record) else {
        return Err("a record")?;
    };
    if !account.number_from(1) {
        return Err("a number")?;
    }
    Ok(account)
}

static UIDS: [(&str, &str); 10] = [
    ("Mailboxes", "inbox 0 999999999;"),
    ("Take 9 9999 1 10 inbox 1 10 inbox", "Pull"),
    ("Pulled", "3"),
    ("Mailboxes", "inbox 1 1000000000;"),
    ("Take 9 9999 1 10 inbox", "none"),
    ("Pull 9 1 10 inbox", "not allowed"),
    ("Copy inbox 1000000000 inbox", "418 Limit reached uids"),
    ("MakeMailbox work", "MakeMailbox"),
    ("Copy inbox 1000000000 work", "Copy"),
    ("Copy work 1 inbox", "418 Limit reached uids"),
];

static CLIENTS: [(&str, &str); 21] = [
    ("MakeClient c1", "MakeClient"),
    ("MakeClient c2", "MakeClient"),
    ("MakeClient c3", "MakeClient"),
    ("MakeClient c4", "MakeClient"),
    ("MakeClient c5", "MakeClient"),
    ("MakeClient c6", "MakeClient"),
    ("MakeClient c7", "MakeClient"),
    ("MakeClient c8", "MakeClient"),
    ("MakeClient c9", "MakeClient"),
    ("MakeClient c10", "MakeClient"),
    ("MakeClient c11", "MakeClient"),
    ("MakeClient c12", "MakeClient"),
    ("MakeClient c13", "MakeClient"),
    ("MakeClient c14", "MakeClient"),
    ("MakeClient c15", "MakeClient"),
    ("MakeClient c16", "MakeClient"),
    ("MakeClient more", "418 Limit reached clients"),
    ("MakeClient c15", "423 Client exists"),
    ("DropClient c3", "DropClient"),
    ("MakeClient more", "MakeClient"),
    ("MakeClient c3", "418 Limit reached clients"),
];

/// The name of a mailbox that was dropped counts too, and under it one is made again.
static MAILBOXES: [(&str, &str); 8] = [
    ("MakeMailbox more", "418 Limit reached mailboxes"),
    ("MakeMailbox box63", "410 Mailbox exists"),
    ("DropMailbox box7", "DropMailbox"),
    ("DropMailbox box8", "DropMailbox"),
    ("MakeMailbox more", "418 Limit reached mailboxes"),
    ("MakeMailbox box8", "MakeMailbox"),
    ("MakeMailbox more", "418 Limit reached mailboxes"),
    ("Next", "68"),
];

/// A subscription that ended counts no more.
static SUBSCRIPTIONS: [(&str, &str); 6] = [
    ("Subscribe more", "418 Limit reached subscriptions"),
    ("Subscribe news63", "421 Already subscribed"),
    ("Unsubscribe news7", "Unsubscribe"),
    ("Subscribe more", "Subscribe"),
    ("Subscribe news7", "418 Limit reached subscriptions"),
    ("Next", "67"),
];
