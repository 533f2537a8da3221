//! Tests on rows that were worked out by hand.

mod full;

use crate::Mailbox;
use pc_account_history::{MOST_MESSAGES, MOST_UIDS};
use pc_base::{Line, Lines, Memory, Name, Uids};
use pc_message::{Change, Message};
use std::alloc::Global;
use std::process::Abort;
use std::test::Fail;

fn holds(rt: &impl Abort, what: &str, is: bool) {
    assert!(rt; is, "{what}");
}

fn counts(rt: &impl Abort, what: &str, found: u64, wanted: u64) {
    assert_eq!(rt; found, wanted, "{what}");
}

/// Whether a client has just these uids listed, each with this stamp.
fn lists(
    rt: &impl Abort,
    alloc: Global,
    mailbox: &Mailbox,
    client: Name,
    wanted: &[(u32, u64)],
) -> Result<(), Fail> {
    let found = list(alloc, mailbox, client)?;
    assert_eq!(rt; found.as_slice(), wanted, "of {:?}", client.bytes());
    Ok(())
}

/// The whole list of a client, as pairs of uid and stamp.
fn list(alloc: Global, mailbox: &Mailbox, client: Name) -> Result<Vec<(u32, u64)>, Fail> {
    let mut pairs = Vec::new(alloc);
    for change in mailbox.changed(alloc, client, 256)?.as_slice() {
        pairs.push((change.uid, change.stamp))?;
    }
    Ok(pairs)
}

fn name(bytes: &[u8]) -> Result<Name, Fail> {
    Ok(Name::read(bytes).ok_or("a name")?)
}

fn letter(alloc: Global) -> Result<Message, Fail> {
    let mut lines = Lines::new(alloc);
    lines.push(Line::copy_of(alloc, b"To: ann")?)?;
    let message = Message::of(lines).ok().ok_or("too large")?;
    Ok(message)
}

/// Puts a message in, with its flags off.
fn add(alloc: Global, mailbox: &mut Mailbox, at: u64, message: &Message) -> Result<u32, Memory> {
    if mailbox.highest() >= MOST_UIDS {
        return Err(Memory);
    }
    if mailbox.count() as usize >= MOST_MESSAGES {
        return Err(Memory);
    }
    mailbox.add(alloc, at, message, 0)
}

/// Puts so many messages in, by one entry.
fn add_all(alloc: Global, mailbox: &mut Mailbox, at: u64, count: usize) -> Result<(), Fail> {
    let message = letter(alloc)?;
    for _ in 0..count {
        add(alloc, mailbox, at, &message)?;
    }
    Ok(())
}

/// Sets flag 0 or 1 of a message.
fn set_flag(mailbox: &mut Mailbox, at: u64, uid: u32, seen: bool) -> Result<(), Memory> {
    if mailbox.live(uid).is_none() {
        return Err(Memory);
    }
    let flag = if seen { 1 } else { 0 };
    mailbox.flag(at, uid, flag, true)
}

/// Takes the uids up to this one off the list of a client.
fn forget(alloc: Global, mailbox: &mut Mailbox, client: Name, upto: u32) -> Result<(), Fail> {
    let mut taken = Uids::new(alloc);
    for uid in 1..=upto {
        taken.push(uid)?;
    }
    mailbox.forget(client, &taken);
    Ok(())
}

/// Five messages for two clients, of which the last one has flag 1 on; the first client has
/// forgotten the others.
fn seen_by_two(alloc: Global, ws1: Name, ws2: Name) -> Result<Mailbox, Fail> {
    let mut inbox = Mailbox::empty(alloc)?;
    inbox.add_client(alloc, 3, ws1)?;
    inbox.add_client(alloc, 4, ws2)?;
    add_all(alloc, &mut inbox, 5, 5)?;
    set_flag(&mut inbox, 6, 5, true)?;
    forget(alloc, &mut inbox, ws1, 4)?;
    Ok(inbox)
}

#[test]
fn own_changes_are_listed(rt: HostRuntime) -> Result<(), Fail> {
    let (ws1, ws2) = (name(b"ws1")?, name(b"ws2")?);
    let inbox = seen_by_two(rt.alloc(), ws1, ws2)?;
    lists(&rt, rt.alloc(), &inbox, ws1, &OWN)?;
    lists(&rt, rt.alloc(), &inbox, ws2, &ALL)?;
    holds(&rt, "flags", inbox.live(5) == Some(2));
    holds(&rt, "listed", inbox.is_listed(ws1, 5) == Some(6));
    holds(&rt, "forgotten", inbox.is_listed(ws1, 4).is_none());
    counts(&rt, "listed of ws2", inbox.listed_of(ws2) as u64, 5);
    counts(&rt, "listed", inbox.listed(), 6);
    counts(&rt, "takers of 5", inbox.takers(5) as u64, 2);
    counts(&rt, "takers of 1", inbox.takers(1) as u64, 1);
    Ok(())
}

static OWN: [(u32, u64); 1] = [(5, 6)];

static ALL: [(u32, u64); 5] = [(1, 5), (2, 5), (3, 5), (4, 5), (5, 6)];

/// A message for two clients, of which the second came later, with flag 0 on.
fn deleted(alloc: Global, ws1: Name, other: Name) -> Result<Mailbox, Fail> {
    let mut inbox = Mailbox::empty(alloc)?;
    inbox.add_client(alloc, 3, ws1)?;
    add_all(alloc, &mut inbox, 5, 1)?;
    inbox.add_client(alloc, 7, other)?;
    set_flag(&mut inbox, 8, 1, false)?;
    Ok(inbox)
}

#[test]
fn expunged_messages_are_listed(rt: HostRuntime) -> Result<(), Fail> {
    let (ws1, other) = (name(b"ws1")?, name(b"other")?);
    let mut inbox = deleted(rt.alloc(), ws1, other)?;
    holds(&rt, "deletes", inbox.deletes());
    holds(&rt, "a body", inbox.body(1).is_some());
    counts(&rt, "weight", inbox.weight() as u64, 265);
    counts(&rt, "gone", inbox.expunge(rt.alloc(), 9)? as u64, 1);
    holds(&rt, "deletes no more", !inbox.deletes());
    holds(&rt, "no body", inbox.body(1).is_none());
    counts(&rt, "no weight", inbox.weight() as u64, 0);
    counts(&rt, "no messages", inbox.count() as u64, 0);
    counts(&rt, "highest", inbox.highest() as u64, 1);
    lists(&rt, rt.alloc(), &inbox, ws1, &GONE)?;
    lists(&rt, rt.alloc(), &inbox, other, &GONE)?;
    inbox.remove_client(other);
    counts(&rt, "listed of other", inbox.listed_of(other) as u64, 0);
    counts(&rt, "takers of 1", inbox.takers(1) as u64, 1);
    Ok(())
}

static GONE: [(u32, u64); 1] = [(1, 9)];

/// A mailbox from which three messages were dropped.
fn emptied(alloc: Global, ws2: Name) -> Result<Mailbox, Fail> {
    let mut work = Mailbox::empty(alloc)?;
    work.add_client(alloc, 4, ws2)?;
    add_all(alloc, &mut work, 5, 3)?;
    work.drop_all(alloc, 6)?;
    Ok(work)
}

/// Whether just the message with this uid is described.
fn describes(alloc: Global, mailbox: &Mailbox, uid: u32) -> Result<bool, Fail> {
    let told = mailbox.descriptors(alloc, 1, 9)?;
    let [Change::Present(descriptor)] = told.as_slice() else {
        return Ok(false);
    };
    Ok(descriptor.uid == uid)
}

#[test]
fn uids_go_on_after_the_mailbox_is_emptied(rt: HostRuntime) -> Result<(), Fail> {
    let ws2 = name(b"ws2")?;
    let mut work = emptied(rt.alloc(), ws2)?;
    let uid = add(rt.alloc(), &mut work, 8, &letter(rt.alloc())?)?;
    counts(&rt, "the next uid", uid as u64, 4);
    lists(&rt, rt.alloc(), &work, ws2, &GONE_AND_NEW)?;
    holds(&rt, "described", describes(rt.alloc(), &work, 4)?);
    work.touch_all(rt.alloc(), 10, ws2)?;
    holds(&rt, "touched", work.is_listed(ws2, 4) == Some(10));
    holds(&rt, "not touched", work.is_listed(ws2, 3) == Some(6));
    let first = work.changed(rt.alloc(), ws2, 1)?;
    counts(&rt, "one of many", first.as_slice().len() as u64, 1);
    Ok(())
}

static GONE_AND_NEW: [(u32, u64); 4] = [(1, 6), (2, 6), (3, 6), (4, 8)];
