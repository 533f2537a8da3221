//! Caches at their limits, and lists that are long.

use super::player::{enter, there};
use crate::Cache;
use pc_base::{Name, Names};
use pc_cache_history::CacheEntry;
use pc_message::{Change, Changes};
use std::alloc::Global;
use std::process::Abort;
use std::test::Fail;

/// As many messages of a mailbox, with uids from 1 on.
fn taken(alloc: Global, name: &[u8], count: u32) -> Result<CacheEntry, Fail> {
    let mut changes = Changes::new(alloc);
    for uid in 0..count {
        changes.push(there(alloc, uid.saturating_add(1), 0)?)?;
    }
    took(name, changes)
}

/// As many messages of a mailbox, with falling uids to `last`, and with one more behind them.
fn fallen(
    alloc: Global,
    name: &[u8],
    count: u32,
    last: u32,
    more: u32,
) -> Result<CacheEntry, Fail> {
    let mut changes = Changes::new(alloc);
    for place in 0..count {
        let uid = last
            .saturating_add(count.saturating_sub(place))
            .saturating_sub(1);
        changes.push(there(alloc, uid, 0)?)?;
    }
    changes.push(there(alloc, more, 1)?)?;
    took(name, changes)
}

/// Messages of a mailbox that are gone, with each of these uids but every third, which is there.
fn changed(alloc: Global, name: &[u8], uids: &[u32]) -> Result<CacheEntry, Fail> {
    let mut changes = Changes::new(alloc);
    for uid in uids {
        changes.push(change_of(alloc, *uid)?)?;
    }
    took(name, changes)
}

fn change_of(alloc: Global, uid: u32) -> Result<Change, Fail> {
    if uid % 3 == 0 {
        there(alloc, uid, 5)
    } else {
        Ok(Change::Expunged(uid))
    }
}

/// Two changes: a message that is gone, and one that is there.
fn replaced(alloc: Global, name: &[u8], gone: u32, uid: u32) -> Result<CacheEntry, Fail> {
    let mut changes = Changes::new(alloc);
    changes.push(Change::Expunged(gone))?;
    changes.push(there(alloc, uid, 0)?)?;
    took(name, changes)
}

fn took(name: &[u8], changes: Changes) -> Result<CacheEntry, Fail> {
    Ok(CacheEntry::Took {
        mailbox: Name::read(name).ok_or("a name")?,
        changes,
    })
}

fn fallen_name(alloc: Global, place: u32) -> Result<Name, Fail> {
    let number = 90_000_u32.saturating_sub(place);
    let text = format!(in alloc; "m{number}")?;
    Ok(Name::read(text.as_bytes()).ok_or("a name")?)
}

/// As many names that fall, and one more behind them.
fn kept(alloc: Global, count: u32, more: &str) -> Result<CacheEntry, Fail> {
    let mut names = Names::new(alloc);
    for place in 0..count {
        names.push(fallen_name(alloc, place)?)?;
    }
    names.push(Name::read(more.as_bytes()).ok_or("a name")?)?;
    Ok(CacheEntry::Kept { names })
}

/// An entry with much in it.
enum Long {
    Synced,
    /// As many messages of a mailbox, with uids from 1 on.
    Taken(&'static [u8], u32),
    /// As many with falling uids to one, and with one more behind them.
    Fallen(&'static [u8], u32, u32, u32),
    /// A message that is gone, and one that is there.
    Replaced(&'static [u8], u32, u32),
    /// Messages that are gone, with each of these uids but every third, which is there.
    Changed(&'static [u8], &'static [u32]),
    /// As many names that fall, and one more behind them.
    Kept(u32, &'static str),
}

/// Whether an entry is made where it is allowed, or only asked for.
const MADE: bool = true;

const ASKED: bool = false;

fn entry_of(alloc: Global, long: &Long) -> Result<CacheEntry, Fail> {
    match long {
        Long::Synced => Ok(CacheEntry::Synced),
        Long::Taken(name, count) => taken(alloc, name, *count),
        Long::Fallen(name, count, last, more) => fallen(alloc, name, *count, *last, *more),
        Long::Replaced(name, gone, uid) => replaced(alloc, name, *gone, *uid),
        Long::Changed(name, uids) => changed(alloc, name, uids),
        Long::Kept(count, more) => kept(alloc, *count, more),
    }
}

/// Whether an entry is allowed; where it is, it is made, or only asked for.
fn step(alloc: Global, cache: &mut Cache, is_made: bool, long: &Long) -> Result<bool, Fail> {
    let entry = entry_of(alloc, long)?;
    if is_made {
        Ok(enter(alloc, cache, &entry)?)
    } else {
        Ok(cache.allows(&entry))
    }
}

/// Goes through the rows, and looks whether each entry is allowed just where it is to be.
fn goes_on(
    rt: &impl Abort,
    alloc: Global,
    cache: &mut Cache,
    rows: &[(bool, Long, bool)],
) -> Result<(), Fail> {
    for (place, (is_made, long, want)) in rows.iter().enumerate() {
        let found = step(alloc, cache, *is_made, long)?;
        assert_eq!(rt; found, *want, "row {place}");
    }
    Ok(())
}

/// Looks whether these are the uids and flags that are shown of a mailbox.
fn shows(
    rt: &impl Abort,
    alloc: Global,
    cache: &Cache,
    name: &[u8],
    want: &[(u32, u16)],
) -> Result<(), Fail> {
    let found = shown(alloc, cache, name)?;
    assert_eq!(rt; found.as_slice(), want);
    Ok(())
}

fn shown(alloc: Global, cache: &Cache, name: &[u8]) -> Result<Vec<(u32, u16)>, Fail> {
    let changes = cache.view(alloc, &Name::read(name).ok_or("a name")?)?;
    pairs(alloc, changes.as_slice())
}

/// The uid and flags of each message that is there.
fn pairs(alloc: Global, changes: &[Change]) -> Result<Vec<(u32, u16)>, Fail> {
    let mut found = Vec::new(alloc);
    for change in changes {
        if let Change::Present(shown) = change {
            found.push((shown.uid, shown.flags))?;
        }
    }
    Ok(found)
}

#[test]
fn descriptors_are_at_most_131_072(rt: HostRuntime) -> Result<(), Fail> {
    let mut cache = Cache::empty(rt.alloc())?;
    goes_on(&rt, rt.alloc(), &mut cache, &MOST)
}

#[test]
fn long_lists_that_fall(rt: HostRuntime) -> Result<(), Fail> {
    let mut cache = Cache::empty(rt.alloc())?;
    goes_on(&rt, rt.alloc(), &mut cache, &FALLING)
}

#[test]
fn changes_that_are_merged(rt: HostRuntime) -> Result<(), Fail> {
    let mut cache = Cache::empty(rt.alloc())?;
    merges(&rt, rt.alloc(), &mut cache)
}

fn merges(rt: &impl Abort, alloc: Global, cache: &mut Cache) -> Result<(), Fail> {
    goes_on(rt, alloc, cache, &MERGED)?;
    shows(rt, alloc, cache, b"one", &SHOWN)
}

static MOST: [(bool, Long, bool); 11] = [
    (MADE, Long::Synced, true),
    (ASKED, Long::Taken(b"one", 32_769), false),
    (MADE, Long::Taken(b"one", 32_768), true),
    (MADE, Long::Taken(b"two", 32_768), true),
    (MADE, Long::Taken(b"three", 32_768), true),
    (MADE, Long::Taken(b"four", 32_768), true),
    (ASKED, Long::Taken(b"five", 1), false),
    (ASKED, Long::Taken(b"four", 1), true),
    (ASKED, Long::Replaced(b"four", 32_770, 32_769), false),
    (MADE, Long::Replaced(b"four", 7, 32_769), true),
    (ASKED, Long::Taken(b"four", 7), false),
];

static FALLING: [(bool, Long, bool); 13] = [
    (MADE, Long::Synced, true),
    (ASKED, Long::Fallen(b"one", 64, 7, 70), false),
    (ASKED, Long::Fallen(b"one", 64, 7, 7), false),
    (ASKED, Long::Fallen(b"one", 63, 7, 69), false),
    (ASKED, Long::Fallen(b"one", 64, 7, 71), true),
    (ASKED, Long::Fallen(b"one", 64, 0, 64), true),
    (ASKED, Long::Fallen(b"one", 64, 0, 0), false),
    (ASKED, Long::Kept(64, "m90000"), false),
    (ASKED, Long::Kept(64, "m89937"), false),
    (ASKED, Long::Kept(63, "m89938"), false),
    (ASKED, Long::Kept(64, "m89936"), true),
    (ASKED, Long::Kept(32_767, "m"), true),
    (ASKED, Long::Kept(32_768, "m"), false),
];

/// The last one has one uid more than are taken one after the other.
static MERGED: [(bool, Long, bool); 3] = [
    (MADE, Long::Synced, true),
    (MADE, Long::Fallen(b"one", 8, 10, 3), true),
    (
        MADE,
        Long::Changed(
            b"one",
            &[
                30, 16, 2, 15, 11, 9, 1, 27, 12, 40, 6, 41, 21, 4, 33, 10, 18,
            ],
        ),
        true,
    ),
];

/// Of 3 and 10 to 17 the messages 10, 11 and 16 are gone, 12 and 15 are changed, and the others that
/// three divides have come.
static SHOWN: [(u32, u16); 13] = [
    (3, 1),
    (6, 5),
    (9, 5),
    (12, 5),
    (13, 0),
    (14, 0),
    (15, 5),
    (17, 0),
    (18, 5),
    (21, 5),
    (27, 5),
    (30, 5),
    (33, 5),
];
