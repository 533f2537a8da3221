//! Tests of a mailbox that has all the messages that it can have, for sixteen clients.

use super::{add_all, counts, holds, set_flag};
use crate::Mailbox;
use pc_account_history::{Listed, MOST_MESSAGES};
use pc_base::Name;
use pc_message::Change;
use std::alloc::Global;
use std::process::Abort;
use std::test::Fail;

/// The client with this number.
fn client(number: u8) -> Result<Name, Fail> {
    Ok(Name::read(&[b'w', b'a'.saturating_add(number)]).ok_or("a client")?)
}

/// Adds sixteen clients.
fn add_clients(alloc: Global, mailbox: &mut Mailbox) -> Result<(), Fail> {
    for number in 0..16 {
        mailbox.add_client(alloc, 3, client(number)?)?;
    }
    Ok(())
}

/// A mailbox of 4,096 messages, for sixteen clients.
fn full(alloc: Global) -> Result<Mailbox, Fail> {
    let mut inbox = Mailbox::empty(alloc)?;
    add_clients(alloc, &mut inbox)?;
    add_all(alloc, &mut inbox, 20, MOST_MESSAGES)?;
    Ok(inbox)
}

/// Whether each of the sixteen clients has the uid listed with this stamp.
fn all_list(mailbox: &Mailbox, uid: u32, stamp: u64) -> Result<bool, Fail> {
    for number in 0..16 {
        if mailbox.is_listed(client(number)?, uid) != Some(stamp) {
            return Ok(false);
        }
    }
    Ok(true)
}

/// Whether each of the sixteen clients has so many changes listed.
fn all_have(mailbox: &Mailbox, count: u32) -> Result<bool, Fail> {
    for number in 0..16 {
        if mailbox.listed_of(client(number)?) != count {
            return Ok(false);
        }
    }
    Ok(true)
}

/// Looks at the flags of each message with these uids.
fn have_flags(rt: &impl Abort, mailbox: &Mailbox, rows: &[(u32, Option<u16>)]) {
    for (uid, flags) in rows {
        assert_eq!(rt; mailbox.live(*uid), *flags, "of {uid}");
    }
}

/// The uids of the descriptors from one uid to another.
fn told(alloc: Global, mailbox: &Mailbox, low: u32, high: u32) -> Result<Vec<u32>, Fail> {
    let mut uids = Vec::new(alloc);
    for change in mailbox.descriptors(alloc, low, high)?.as_slice() {
        if let Change::Present(descriptor) = change {
            uids.push(descriptor.uid)?;
        }
    }
    Ok(uids)
}

/// Looks whether these are the uids that are told from one uid to another.
fn tells(
    rt: &impl Abort,
    alloc: Global,
    mailbox: &Mailbox,
    low: u32,
    high: u32,
    uids: &[u32],
) -> Result<(), Fail> {
    let found = told(alloc, mailbox, low, high)?;
    assert_eq!(rt; found.as_slice(), uids, "from {low} to {high}");
    Ok(())
}

/// A full mailbox in which the first message, one in the middle and the last have flag 1 on.
fn flagged(alloc: Global) -> Result<Mailbox, Fail> {
    let mut inbox = full(alloc)?;
    set_flag(&mut inbox, 21, 1, true)?;
    set_flag(&mut inbox, 22, 2_048, true)?;
    set_flag(&mut inbox, 23, 4_096, true)?;
    Ok(inbox)
}

#[test]
fn flags_are_set(rt: HostRuntime) -> Result<(), Fail> {
    let inbox = flagged(rt.alloc())?;
    have_flags(&rt, &inbox, &FLAGGED);
    holds(&rt, "no body", inbox.body(4_097).is_none());
    holds(&rt, "deletes nothing", !inbox.deletes());
    Ok(())
}

static FLAGGED: [(u32, Option<u16>); 10] = [
    (0, None),
    (1, Some(2)),
    (2, Some(0)),
    (3, Some(0)),
    (2_047, Some(0)),
    (2_048, Some(2)),
    (2_049, Some(0)),
    (4_095, Some(0)),
    (4_096, Some(2)),
    (4_097, None),
];

#[test]
fn flags_are_listed(rt: HostRuntime) -> Result<(), Fail> {
    let inbox = flagged(rt.alloc())?;
    holds(&rt, "all are listed", all_have(&inbox, 4_096)?);
    holds(&rt, "the flag", all_list(&inbox, 2_048, 22)?);
    holds(&rt, "no flag", all_list(&inbox, 2_049, 20)?);
    counts(&rt, "takers of 1", inbox.takers(1) as u64, 16);
    counts(&rt, "takers of 4096", inbox.takers(4_096) as u64, 16);
    Ok(())
}

/// Whether the list of a client begins with the second message and ends with the last one.
fn is_in_order(alloc: Global, mailbox: &Mailbox, number: u8) -> Result<bool, Fail> {
    let shown = mailbox.changed(alloc, client(number)?, 4_096)?;
    let shown = shown.as_slice();
    let last = Listed {
        uid: 4_096,
        stamp: 23,
    };
    Ok(shown.first() == Some(&Listed { uid: 2, stamp: 20 }) && shown.last() == Some(&last))
}

#[test]
fn lists_are_in_order(rt: HostRuntime) -> Result<(), Fail> {
    let inbox = flagged(rt.alloc())?;
    for number in 0..16 {
        holds(&rt, "in order", is_in_order(rt.alloc(), &inbox, number)?);
    }
    Ok(())
}

/// A full mailbox from which message 2,048 was taken away.
fn expunged(alloc: Global) -> Result<Mailbox, Fail> {
    let mut inbox = full(alloc)?;
    set_flag(&mut inbox, 21, 2_048, false)?;
    inbox.expunge(alloc, 22)?;
    Ok(inbox)
}

#[test]
fn a_message_is_taken_away(rt: HostRuntime) -> Result<(), Fail> {
    let inbox = expunged(rt.alloc())?;
    have_flags(&rt, &inbox, &EXPUNGED);
    holds(&rt, "deletes nothing", !inbox.deletes());
    counts(&rt, "count", inbox.count() as u64, 4_095);
    counts(&rt, "weight", inbox.weight() as u64, 1_085_175);
    holds(&rt, "is listed", all_list(&inbox, 2_048, 22)?);
    Ok(())
}

static EXPUNGED: [(u32, Option<u16>); 3] = [(2_047, Some(0)), (2_048, None), (2_049, Some(0))];

#[test]
fn descriptors_are_told(rt: HostRuntime) -> Result<(), Fail> {
    let inbox = expunged(rt.alloc())?;
    for (low, high, uids) in &TOLD {
        tells(&rt, rt.alloc(), &inbox, *low, *high, uids)?;
    }
    let all = told(rt.alloc(), &inbox, 0, u32::MAX)?;
    counts(&rt, "all", all.len() as u64, 4_095);
    Ok(())
}

/// The uids that are told from one to another.
static TOLD: [(u32, u32, &[u32]); 5] = [
    (2_047, 2_049, &[2_047, 2_049]),
    (2_048, 2_048, &[]),
    (0, 2, &[1, 2]),
    (4_095, u32::MAX, &[4_095, 4_096]),
    (9, 3, &[]),
];

/// A full mailbox that was emptied; then all that lives was listed for each client.
fn emptied(alloc: Global) -> Result<Mailbox, Fail> {
    let mut inbox = expunged(alloc)?;
    inbox.drop_all(alloc, 23)?;
    for number in 0..16 {
        inbox.touch_all(alloc, 24, client(number)?)?;
    }
    Ok(inbox)
}

#[test]
fn all_are_taken_away(rt: HostRuntime) -> Result<(), Fail> {
    let inbox = emptied(rt.alloc())?;
    counts(&rt, "count", inbox.count() as u64, 0);
    counts(&rt, "weight", inbox.weight() as u64, 0);
    counts(&rt, "highest", inbox.highest() as u64, 4_096);
    holds(&rt, "all are listed", all_have(&inbox, 4_096)?);
    holds(&rt, "the expunged one", all_list(&inbox, 2_048, 22)?);
    holds(&rt, "the first one", all_list(&inbox, 1, 23)?);
    Ok(())
}
