//! A store over a small machine: crashes at each device call, and each byte of an area.

ghost use Rattle.std.specs.Prelude.{◌<◌};

mod commits;
mod folds;
mod openings;
mod tally;

use crate::{OpenFault, Store};
use pc_base::{CommitFault, Machine, Room, StoreFault};
use pc_disk::{Choice, Disk, MemoryDisk};
use std::alloc::Global;
use std::process::Abort;
use std::test::Fail;
use tally::{Tally, Tick};

type TallyStore = Store<Tally, MemoryDisk>;

/// The area of a tally after the marks 7 and 9: the gate, `PCMAIL1` and LF, kind, generation, first
/// number, length of the base, base; then each entry behind its gate, and the closed gate.
const AREA: &[u8] =
    b"\x01PCMAIL1\x0a\x02\x00\x00\x00\x00\x00\x00\x00\x01\x00\x00\x00\x00\x00\x00\x00\x01\x00\x00\x00\x01\x00\x01\x00\x00\x00\x01\x07\x01\x00\x00\x00\x01\x09\x00";

/// The area of a tally of two marks that was folded.
const LATER: &[u8] =
    b"\x01PCMAIL1\x0a\x02\x00\x00\x00\x00\x00\x00\x00\x02\x00\x00\x00\x00\x00\x00\x00\x03\x00\x00\x00\x01\x02\x00";

static CHOICES: [Choice; 4] = [Choice::Keep, Choice::Lose, Choice::Fill(0), Choice::Fill(1)];

fn disk_of(alloc: Global, area: &[u8]) -> Result<MemoryDisk, Fail> {
    let mut disk = MemoryDisk::new(alloc);
    disk.reserve(0, area.len() as u64)?;
    disk.write(0, 0, area)?;
    disk.sync()?;
    Ok(disk)
}

/// A disk with these bytes in its two areas.
fn disk_of_both(alloc: Global, first: &[u8], second: &[u8]) -> Result<MemoryDisk, Fail> {
    let mut disk = disk_of(alloc, first)?;
    disk.reserve(1, second.len() as u64)?;
    disk.write(1, 0, second)?;
    disk.sync()?;
    Ok(disk)
}

/// The store that stands in an area.
fn opened(alloc: Global, area: &[u8]) -> Result<TallyStore, Fail> {
    match TallyStore::open_store(alloc, disk_of(alloc, area)?) {
        Ok(store) => Ok(store),
        Err(_) => Err("opened".into()),
    }
}

/// What opening finds: how many entries, or why it is refused.
fn found_on(alloc: Global, disk: MemoryDisk) -> Result<usize, StoreFault> {
    match TallyStore::open_store(alloc, disk) {
        Ok(store) => Ok(store.trail().len()),
        Err(OpenFault { disk: _, cause }) => Err(cause),
    }
}

/// Commits a mark to a store that may take one.
fn mark(alloc: Global, store: &mut TallyStore, mark: u8) -> Result<Result<u64, CommitFault>, Fail> {
    let tick = Tick { mark };
    if store.is_broken() || !store.state().allows(&tick) {
        return Err("may take one".into());
    }
    Ok(store.commit(alloc, tick))
}

fn holds(rt: &impl Abort, row: &str, is: bool) {
    assert!(rt; is, "{row}");
}

fn number_is(rt: &impl Abort, what: &str, found: u64, wanted: u64) {
    assert_eq!(rt; found, wanted, "{what}");
}

fn answer_is(
    rt: &impl Abort,
    row: u32,
    found: Result<u64, CommitFault>,
    wanted: Result<u64, CommitFault>,
) {
    assert_eq!(rt; found, wanted, "{row}");
}

/// What opening finds, the number of the entries or why it is refused, in this row.
fn found_is(
    rt: &impl Abort,
    row: usize,
    found: Result<usize, StoreFault>,
    wanted: Result<usize, StoreFault>,
) {
    assert_eq!(rt; found, wanted, "{row}");
}

fn room_is(rt: &impl Abort, store: &TallyStore, entries: u32, bytes: u32) {
    assert_eq!(rt; store.room(), Room { entries, bytes });
}

fn trail_is(rt: &impl Abort, store: &TallyStore, wanted: &[Tick]) {
    assert_eq!(rt; store.trail(), wanted);
}

/// The state of a store that isn't broken.
fn state_of(store: &TallyStore) -> Option<Tally> {
    if store.is_broken() {
        return None;
    }
    Some(*store.state())
}

fn state_is(rt: &impl Abort, store: &TallyStore, count: u8, next: u64) {
    assert_eq!(rt; state_of(store), Some(Tally { count, next }));
}

/// Whether a store is broken, and whether it has an entry in doubt.
fn flags_are(rt: &impl Abort, row: u32, store: &TallyStore, is_broken: bool, in_doubt: bool) {
    let flags = (store.is_broken(), store.doubt().is_some());
    assert_eq!(rt; flags, (is_broken, in_doubt), "{row}");
}

/// Whether an area of a disk is read as these bytes.
fn reads(disk: &mut MemoryDisk, area: u8, wanted: &[u8]) -> bool
    requires { area < 2 }
{
    let mut bytes = [0; 100];
    let Ok(count) = disk.read(area, 0, &mut bytes) else {
        return false;
    };
    &bytes[..count] == wanted
}

#[test]
fn a_store_is_made_byte_for_byte(rt: HostRuntime) -> Result<(), Fail> {
    let alloc = rt.alloc();
    let Ok(mut store) = TallyStore::create(alloc, MemoryDisk::new(alloc)) else {
        return Err("made".into());
    };
    number_is(&rt, "the first number", store.first(), 1);
    number_is(&rt, "the next number", store.next(), 1);
    room_is(&rt, &store, 65_536, 16_777_216);
    answer_is(&rt, 1, mark(alloc, &mut store, 7)?, Ok(1));
    answer_is(&rt, 2, mark(alloc, &mut store, 9)?, Ok(2));
    state_is(&rt, &store, 2, 3);
    trail_is(&rt, &store, &[Tick { mark: 7 }, Tick { mark: 9 }]);
    room_is(&rt, &store, 65_534, 16_777_214);
    let mut disk = store.into_disk();
    holds(&rt, "the area", reads(&mut disk, 0, AREA));
    holds(&rt, "the other area", disk.length(1) == Ok(0));
    Ok(())
}

#[test]
fn a_store_is_opened_again(rt: HostRuntime) -> Result<(), Fail> {
    let store = opened(rt.alloc(), AREA)?;
    state_is(&rt, &store, 2, 3);
    number_is(&rt, "the next number", store.next(), 3);
    flags_are(&rt, 0, &store, false, false);
    Ok(())
}

#[test]
fn no_store_is_found_on_an_empty_disk(rt: HostRuntime) {
    let alloc = rt.alloc();
    let found = found_on(alloc, MemoryDisk::new(alloc));
    found_is(&rt, 0, found, Err(StoreFault::NotMade));
}
