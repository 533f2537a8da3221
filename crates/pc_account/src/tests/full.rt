//! Accounts that are full: the limits that take many messages, each at its number and one past it.

use super::player::{each, gives, goes_on, plays};
use crate::Account;
use std::alloc::Global;
use std::process::Abort;
use std::test::Fail;

#[test]
fn a_mailbox_of_4096_messages(rt: HostRuntime) -> Result<(), Fail> {
    let mut account = Account::empty(rt.alloc())?;
    meets_messages(&rt, rt.alloc(), &mut account)
}

#[test]
fn sixteen_mebibytes(rt: HostRuntime) -> Result<(), Fail> {
    plays(&rt, rt.alloc(), &BYTES)
}

#[test]
fn several_limits_at_once(rt: HostRuntime) -> Result<(), Fail> {
    let mut account = Account::empty(rt.alloc())?;
    meets_several(&rt, rt.alloc(), &mut account)
}

#[test]
fn changes_of_what_is_gone(rt: HostRuntime) -> Result<(), Fail> {
    let mut account = Account::empty(rt.alloc())?;
    meets_changes(&rt, rt.alloc(), &mut account)
}

/// Fills box0 up to one message, and looks where messages stop.
fn meets_messages(rt: &impl Abort, alloc: Global, account: &mut Account) -> Result<(), Fail> {
    each(rt, alloc, account, "MakeMailbox", "box", 2)?;
    bring(rt, alloc, account, "box1", 1)?;
    fill_up_to_one(rt, alloc, account, "box0")?;
    goes_on(rt, alloc, account, &MESSAGES)
}

/// Fills an account up to one message, and looks where several limits stop it.
fn meets_several(rt: &impl Abort, alloc: Global, account: &mut Account) -> Result<(), Fail> {
    each(rt, alloc, account, "MakeClient", "c", 16)?;
    each(rt, alloc, account, "MakeMailbox", "box", 17)?;
    for place in 0..15 {
        fill_box(rt, alloc, account, place)?;
    }
    fill_up_to_one(rt, alloc, account, "box15")?;
    goes_on(rt, alloc, account, &SEVERAL)
}

/// Fills a mailbox and drops it again and again, and looks where changes stop.
fn meets_changes(rt: &impl Abort, alloc: Global, account: &mut Account) -> Result<(), Fail> {
    goes_on(rt, alloc, account, &BEGINNING)?;
    for _ in 0..254 {
        fill(rt, alloc, account, "box")?;
        goes_on(rt, alloc, account, &AGAIN)?;
    }
    fill(rt, alloc, account, "box")?;
    goes_on(rt, alloc, account, &CHANGES)
}

/// Brings 4,096 empty messages to the mailbox of this number.
fn fill_box(
    rt: &impl Abort,
    alloc: Global,
    account: &mut Account,
    number: u32,
) -> Result<(), Fail> {
    let mailbox = format!(in alloc; "box{number}")?;
    fill(rt, alloc, account, &mailbox)
}

/// Brings 4,096 empty messages to a mailbox.
fn fill(rt: &impl Abort, alloc: Global, account: &mut Account, mailbox: &str) -> Result<(), Fail> {
    for _ in 0..64 {
        bring(rt, alloc, account, mailbox, 64)?;
    }
    Ok(())
}

/// Brings 4,095 empty messages to a mailbox.
fn fill_up_to_one(
    rt: &impl Abort,
    alloc: Global,
    account: &mut Account,
    mailbox: &str,
) -> Result<(), Fail> {
    for _ in 0..63 {
        bring(rt, alloc, account, mailbox, 64)?;
    }
    bring(rt, alloc, account, mailbox, 63)
}

/// Brings so many empty messages to a mailbox, by one pull.
fn bring(
    rt: &impl Abort,
    alloc: Global,
    account: &mut Account,
    mailbox: &str,
    count: u32,
) -> Result<(), Fail> {
    let upto = account.pulled().saturating_add(1);
    let line = format!(in alloc; "Pull {upto} {count} 0 {mailbox}")?;
    gives(rt, alloc, account, &line, "Pull")
}

/// box0 has 4,095 messages, and box1 has one.
static MESSAGES: [(&str, &str); 25] = [
    ("MakeMailbox inbox", "MakeMailbox"),
    ("Mailboxes", "box0 4095 4095;box1 1 1;inbox 0 0;"),
    ("Pull 99 2 0 box0", "not allowed"),
    ("Copy box1 1 box0", "Copy"),
    ("Copy box1 1 box0", "418 Limit reached messages"),
    ("Copy box0 1 box0", "418 Limit reached messages"),
    ("Copy box0 1 box1", "Copy"),
    ("Pull 99 1 0 box0", "not allowed"),
    ("Pull 99 1 0 box1 box0", "not allowed"),
    ("Take 1 999 1 0 box0 1 0 box1", "none"),
    ("Take 1 999 1 0 box1 1 0 box0 1 0 box1", "Pull"),
    ("Mailboxes", "box0 4096 4096;box1 3 3;inbox 0 0;"),
    ("Flag box0 1 0 on", "Flag"),
    ("Flag box0 2 0 on", "Flag"),
    ("Copy box1 1 box0", "418 Limit reached messages"),
    ("Expunge box0", "Expunge"),
    ("Pull 99 3 0 box0", "not allowed"),
    ("Take 1 999 1 0 box0 1 0 gone 2 0 box0", "Pull"),
    ("Mailboxes", "box0 4096 4098;box1 3 3;inbox 1 1;"),
    ("Copy inbox 1 box0", "418 Limit reached messages"),
    ("Copy inbox 1 none", "409 No such mailbox"),
    ("DropMailbox box0", "DropMailbox"),
    ("MakeMailbox box0", "MakeMailbox"),
    ("Copy inbox 1 box0", "Copy"),
    ("Mailboxes", "box1 3 3;inbox 1 1;box0 1 4099;"),
];

/// A message of 65,536 bytes counts for 65,792, and an empty one for 256. 255 of the first kind and
/// one of the second are 16,777,216.
static BYTES: [(&str, &str); 28] = [
    ("MakeMailbox inbox", "MakeMailbox"),
    ("MakeMailbox work", "MakeMailbox"),
    ("Pull 1 64 65536 inbox", "Pull"),
    ("Pull 2 64 65536 inbox", "Pull"),
    ("Pull 3 64 65536 inbox", "Pull"),
    ("Pull 4 64 65536 inbox", "not allowed"),
    ("Pull 4 63 65536 inbox", "Pull"),
    ("Copy inbox 1 work", "418 Limit reached bytes"),
    ("Pull 5 1 2 work", "not allowed"),
    ("Pull 5 2 0 work", "not allowed"),
    ("Take 1 99999 1 2 work 1 0 work", "none"),
    ("Take 1 99999 2 0 work", "Pull"),
    ("Pulled", "7"),
    ("Mailboxes", "inbox 255 255;work 1 1;"),
    ("Copy work 1 work", "418 Limit reached bytes"),
    ("Take 1 99999 1 0 work", "none"),
    ("Flag inbox 9 0 on", "Flag"),
    ("Copy work 1 work", "418 Limit reached bytes"),
    ("Expunge inbox", "Expunge"),
    ("Copy inbox 1 work", "Copy"),
    ("Copy work 1 work", "418 Limit reached bytes"),
    ("DropMailbox work", "DropMailbox"),
    ("MakeMailbox work", "MakeMailbox"),
    ("Pull 8 1 65536 work", "Pull"),
    ("Pull 9 2 0 work", "not allowed"),
    ("Pull 9 1 0 work", "Pull"),
    ("Copy work 4 inbox", "418 Limit reached bytes"),
    ("Mailboxes", "inbox 254 255;work 2 4;"),
];

/// 16 clients, box0 to box14 with 4,096 empty messages each, box15 with 4,095, and box16 with none.
/// With one more in box15 there are 65,536 messages, which weigh 16,777,216, and 1,048,576 changes
/// are listed. What is gone stays on the lists until it is forgotten, or its client is dropped.
static SEVERAL: [(&str, &str); 29] = [
    ("Pull 9999 1 0 box15 box16", "not allowed"),
    ("Copy box0 1 box15", "Copy"),
    ("MakeClient more", "418 Limit reached clients"),
    ("Copy box0 1 box1", "418 Limit reached messages"),
    ("Copy box0 1 box16", "418 Limit reached bytes"),
    ("Pull 9999 1 0 box16", "not allowed"),
    ("Take 1 999 1 0 box16", "none"),
    ("Flag box0 1 1 on", "Flag"),
    ("ResetMailbox c1 box1", "ResetMailbox"),
    ("ResetClient c2", "ResetClient"),
    ("Flag box0 1 0 on", "Flag"),
    ("Expunge box0", "Expunge"),
    ("Copy box0 2 box1", "418 Limit reached messages"),
    ("Copy box0 2 box16", "418 Limit reached changes"),
    ("Pull 9999 1 0 box16", "not allowed"),
    ("Take 1 999 1 0 box16", "none"),
    ("Copy box0 1 box16", "412 No such message"),
    ("DropMailbox box15", "DropMailbox"),
    ("Copy box0 2 box15", "409 No such mailbox"),
    ("MakeMailbox box15", "MakeMailbox"),
    ("Copy box0 2 box15", "418 Limit reached changes"),
    ("MakeClient more", "418 Limit reached clients"),
    ("DropClient c3", "DropClient"),
    ("Copy box0 2 box15", "Copy"),
    ("Pull 9999 1 0 box16", "Pull"),
    ("MakeClient more", "MakeClient"),
    ("Listed c4 box16", "1 1068;"),
    ("Listed more box16", "1 1069;"),
    ("Next", "1070"),
];

static BEGINNING: [(&str, &str); 2] = [
    ("MakeClient a", "MakeClient"),
    ("MakeMailbox box", "MakeMailbox"),
];

static AGAIN: [(&str, &str); 2] = [
    ("DropMailbox box", "DropMailbox"),
    ("MakeMailbox box", "MakeMailbox"),
];

/// Client a has 1,044,480 changes in box, which was filled for the 255th time: uids from 1,040,385
/// on live. One message in work, which is dropped, is one change more. With the 4,096 of a new
/// client these are 1,048,577, one too many. Once a has forgotten one there is no room but where
/// another change is forgotten.
static CHANGES: [(&str, &str); 44] = [
    ("Next", "16831"),
    ("Mailboxes", "box 4096 1044480;"),
    ("MakeMailbox work", "MakeMailbox"),
    ("Pull 16321 1 0 work", "Pull"),
    ("DropMailbox work", "DropMailbox"),
    ("Flag box 1040385 0 on", "Flag"),
    ("MakeClient b", "418 Limit reached changes"),
    ("Forget a box 1040385 1040385 1040385 16834", "Forget"),
    ("MakeClient b", "MakeClient"),
    ("MakeMailbox work", "MakeMailbox"),
    ("MakeClient c", "418 Limit reached changes"),
    ("Copy box 1040386 box", "418 Limit reached messages"),
    ("Copy box 1040386 work", "418 Limit reached changes"),
    ("Pull 16322 1 0 work", "not allowed"),
    ("Take 1 999 1 0 work", "none"),
    ("Flag box 1040385 1 on", "418 Limit reached changes"),
    ("Flag box 1040385 1 off", "none"),
    ("Flag box 1040386 1 on", "Flag"),
    ("Expunge box", "418 Limit reached changes"),
    ("Expunge work", "none"),
    ("DropMailbox box", "418 Limit reached changes"),
    ("ResetMailbox a box", "418 Limit reached changes"),
    ("ResetClient a", "418 Limit reached changes"),
    ("ResetMailbox a work", "ResetMailbox"),
    ("ResetClient b", "ResetClient"),
    ("Next", "16841"),
    (
        "Forget b box 1 1040391 1040387 16840 1040388 16840 1040389 16840 1040390 16840 1040391 16840",
        "Forget",
    ),
    ("Take 1 999 3 0 work", "Pull"),
    ("Mailboxes", "box 4096 1044480;work 2 3;"),
    ("Pulled", "16327"),
    ("Take 1 999 1 0 work", "none"),
    ("Copy work 2 work", "418 Limit reached changes"),
    ("Flag box 1040385 1 on", "Flag"),
    ("Flag box 1040387 1 on", "418 Limit reached changes"),
    ("Expunge box", "Expunge"),
    ("Flag box 1040385 1 off", "412 No such message"),
    ("DropMailbox work", "DropMailbox"),
    ("DropMailbox box", "418 Limit reached changes"),
    ("ResetClient b", "418 Limit reached changes"),
    ("DropClient b", "DropClient"),
    ("DropMailbox box", "DropMailbox"),
    ("MakeClient b", "MakeClient"),
    ("Mailboxes", ""),
    ("Next", "16849"),
];
