//! An office that is saved and loaded again.

use super::player::goes_on;
use crate::Office;
use pc_base::{Bytes, ReadFault};
use std::alloc::Global;
use std::process::Abort;
use std::test::Fail;

#[test]
fn goes_on_where_it_was_saved(rt: HostRuntime) -> Result<(), Fail> {
    let mut loaded = saved_behind(&rt, rt.alloc())?;
    goes_on(&rt, rt.alloc(), &mut loaded, &BEHIND)
}

/// What is loaded again of the office that has gone so far.
fn saved_behind(rt: &impl Abort, alloc: Global) -> Result<Office, Fail> {
    let mut office = Office::empty(alloc)?;
    goes_on(rt, alloc, &mut office, &BEFORE)?;
    saved(alloc, &office)
}

#[test]
fn new_office_has_eighteen_bytes(rt: HostRuntime) -> Result<(), Fail> {
    is_saved_so(&rt, rt.alloc(), &[0; 18])?;
    for (bytes, place) in &PLACES {
        stops(&rt, rt.alloc(), bytes, *place)?;
    }
    Ok(())
}

/// Bytes, and where they stop being a record.
static PLACES: [(&[u8], Option<u64>); 4] = [
    (&[0; 18], None),
    (&[0; 17], Some(14)),
    (&[0; 19], Some(18)),
    (&[1; 2], Some(0)),
];

/// Looks whether a new office is saved so.
fn is_saved_so(rt: &impl Abort, alloc: Global, want: &[u8]) -> Result<(), Fail> {
    let bytes = saved_bytes(alloc)?;
    assert_eq!(rt; bytes.as_slice(), want);
    Ok(())
}

/// What is saved of a new office.
fn saved_bytes(alloc: Global) -> Result<Bytes, Fail> {
    let office = Office::empty(alloc)?;
    let mut bytes = Bytes::new(alloc);
    office.save(&mut bytes)?;
    Ok(bytes)
}

/// Looks whether the bytes stop being a record at this place; nothing where they are one.
fn stops(rt: &impl Abort, alloc: Global, bytes: &[u8], want: Option<u64>) -> Result<(), Fail> {
    let place = place_of(alloc, bytes)?;
    assert_eq!(rt; place, want, "{bytes:?}");
    Ok(())
}

/// The office that is loaded from what is saved of this one.
fn saved(alloc: Global, office: &Office) -> Result<Office, Fail> {
    let mut bytes = Bytes::new(alloc);
    office.save(&mut bytes)?;
    match Office::load(alloc, bytes.as_slice()) {
        Ok(office) => Ok(office),
        Err(_) => Err("a record")?,
    }
}

/// Where the bytes stop being a record; nothing where they are one.
fn place_of(alloc: Global, bytes: &[u8]) -> Result<Option<u64>, Fail> {
    match Office::load(alloc, bytes) {
        Ok(_) => Ok(None),
        Err(ReadFault::Malformed { place }) => Ok(Some(place)),
        Err(ReadFault::Memory) => Err("no memory")?,
    }
}

const BEFORE: [(&str, &str); 9] = [
    ("AddUser ann", "ok"),
    ("AddUser bob", "ok"),
    ("AddBoard news", "ok"),
    ("Take a.work ann work", "ok"),
    ("Send 1 a.work, bob, news", "ok"),
    ("Send 0 ann", "ok"),
    ("Send 2 bob", "ok"),
    ("Pulled bob 1", "ok"),
    ("Drop a.work ann", "ok"),
];

const BEHIND: [(&str, &str); 15] = [
    ("Users", "ann bob "),
    ("Boards", "news "),
    ("Accepted", "3"),
    ("Noted ann", "0"),
    ("Noted bob", "1"),
    ("Addresses ann inbox", "ann "),
    ("Addresses ann work", ""),
    ("Waiting ann 0", "1 work 2 inbox "),
    ("Waiting bob 0", "3 inbox "),
    ("Board news", "1"),
    ("AddUser news", "415 Address taken"),
    ("Send 0 news, bob", "ok"),
    ("Waiting bob 1", "3 inbox 4 inbox "),
    ("Pulled ann 2", "ok"),
    ("Waiting ann 0", ""),
];
