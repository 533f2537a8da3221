//! Records that were spelled by hand, field by field, and records with a field that is wrong.

use super::holds;
use crate::Account;
use pc_base::{Bytes, ReadFault};
use std::alloc::Global;
use std::process::Abort;
use std::test::Fail;

/// A pull, a password, two clients, a mailbox that lives with a message and two changes of the first
/// client, one that doesn't live with a change of the second client, and a subscription.
static RECORD: &[u8] = b"\0\0\0\0\0\0\0\x07\x010123456789abcdef0123456789abcdef\
    \0\x02\x03ws1\0\0\0\0\0\0\0\x03\x03ws2\0\0\0\0\0\0\0\x04\
    \0\x02\x04box1\x01\0\0\0\x03\0\0\0\x01\0\0\0\x03\0\x02\0\0\0\x02\0\x07To: ann\0\0\
    \0\x02\x03ws1\0\0\0\x02\0\0\0\x01\0\0\0\0\0\0\0\x05\0\0\0\x03\0\0\0\0\0\0\0\x06\x03ws2\0\0\0\0\
    \x04box2\0\0\0\0\x01\0\0\0\0\
    \0\x02\x03ws1\0\0\0\0\x03ws2\0\0\0\x01\0\0\0\x01\0\0\0\0\0\0\0\x07\
    \0\x01\x04news\0\0\0\x09";

/// Where its fields begin.
static FIELDS: [u64; 41] = [
    0, 8, 9, 41, 43, 47, 55, 59, 67, 69, 74, 75, 79, 83, 87, 89, 93, 102, 104, 106, 110, 114, 118,
    126, 130, 138, 142, 146, 151, 152, 156, 160, 162, 166, 170, 174, 178, 182, 190, 192, 197,
];

/// A mailbox that doesn't live, and one that does.
static DROPPED_FIRST: &[u8] =
    b"\0\0\0\0\0\0\0\0\0\0\0\0\x02\x04box1\0\0\0\0\0\0\0\0\0\0\0\x04box2\x01\0\0\0\0\0\0\0\0\0\0\0\0";

/// Where the bytes stop being a record; nothing where they are one.
fn place_of(alloc: Global, bytes: &[u8]) -> Result<Option<u64>, Fail> {
    match Account::load(alloc, bytes) {
        Ok(_) => Ok(None),
        Err(ReadFault::Malformed { place }) => Ok(Some(place)),
        Err(ReadFault::Memory) => Err("no memory")?,
    }
}

/// Looks whether the bytes stop being a record at this place.
fn stops(rt: &impl Abort, alloc: Global, bytes: &[u8], place: Option<u64>) -> Result<(), Fail> {
    let found = place_of(alloc, bytes)?;
    assert_eq!(rt; found, place, "of {} bytes", bytes.len());
    Ok(())
}

/// The record with other bytes at these places.
fn changed(alloc: Global, changes: &[(usize, u8)]) -> Result<Vec<u8>, Fail> {
    let mut bytes = Vec::new(alloc);
    bytes.extend_from_slice(RECORD)?;
    for (at, byte) in changes {
        *bytes.get_mut(*at).ok_or("a place")? = *byte;
    }
    Ok(bytes)
}

/// Looks whether the record with other bytes at these places stops being one at this place.
fn stops_changed(
    rt: &impl Abort,
    alloc: Global,
    changes: &[(usize, u8)],
    place: u64,
) -> Result<(), Fail> {
    let bytes = changed(alloc, changes)?;
    stops(rt, alloc, &bytes, Some(place))
}

/// Whether the bytes are loaded, and saved as they were.
fn is_saved_again(alloc: Global, bytes: &[u8]) -> Result<bool, Fail> {
    let Ok(account) = Account::load(alloc, bytes) else {
        return Ok(false);
    };
    let mut saved = Bytes::new(alloc);
    account.save(&mut saved)?;
    Ok(saved.as_slice() == bytes)
}

/// The field of the record that so many bytes cut off.
fn cut_field(count: u64) -> Option<u64> {
    FIELDS.iter().rev().copied().find(|field| *field <= count)
}

#[test]
fn a_new_account(rt: HostRuntime) -> Result<(), Fail> {
    holds(&rt, "15 zeros", is_saved_again(rt.alloc(), &[0; 15])?);
    stops(&rt, rt.alloc(), &[0; 14], Some(13))?;
    stops(&rt, rt.alloc(), &[0; 16], Some(15))
}

#[test]
fn a_record_of_all_fields(rt: HostRuntime) -> Result<(), Fail> {
    holds(&rt, "all fields", is_saved_again(rt.alloc(), RECORD)?);
    let Ok(mut account) = Account::load(rt.alloc(), RECORD) else {
        return Err("a record")?;
    };
    goes_on_from_8(&rt, &mut account);
    Ok(())
}

/// Looks whether this account of the record goes on with entry 8.
fn goes_on_from_8(rt: &impl Abort, account: &mut Account) {
    holds(rt, "pulled", account.pulled() == 7);
    holds(rt, "a stamp of 7", !account.number_from(7));
    holds(rt, "past all stamps", account.number_from(8));
    holds(rt, "next", account.next() == 8);
}

#[test]
fn a_record_that_is_cut_off(rt: HostRuntime) -> Result<(), Fail> {
    for count in 0..RECORD.len() {
        stops(&rt, rt.alloc(), &RECORD[..count], cut_field(count as u64))?;
    }
    Ok(())
}

#[test]
fn a_field_that_is_wrong(rt: HostRuntime) -> Result<(), Fail> {
    for (changes, place) in &WRONG_FIELDS {
        stops_changed(&rt, rt.alloc(), changes, *place)?;
    }
    stops(&rt, rt.alloc(), DROPPED_FIRST, Some(34))
}

/// Other bytes, and the field at which the record stops being one.
static WRONG_FIELDS: [(&[(usize, u8)], u64); 17] = [
    // a mail past the last one that can be pulled
    (&[(0, 128)], 0),
    // neither a password nor none
    (&[(8, 2)], 8),
    // a client that was born with no entry, and one that was born before the one in front of it
    (&[(54, 0)], 47),
    (&[(66, 3)], 59),
    // a name that is there already: of a client, and of a mailbox
    (&[(58, b'1')], 55),
    (&[(150, b'1')], 146),
    // messages in a mailbox that doesn't live
    (&[(74, 0)], 79),
    // more messages than uids were given
    (&[(78, 0)], 79),
    // a uid that wasn't given: of a message, and on a list
    (&[(86, 4)], 83),
    (&[(129, 4)], 126),
    // a client without a list, and the list of another one
    (&[(105, 1)], 104),
    (&[(109, b'3')], 106),
    // a change twice
    (&[(129, 1)], 126),
    // a stamp before the client's birth, and before the last stamp
    (&[(125, 2)], 118),
    (&[(125, 7)], 130),
    // a lower uid with the last stamp
    (&[(117, 3), (129, 1), (125, 6)], 130),
    // a subscription that isn't a name
    (&[(192, 0)], 192),
];
