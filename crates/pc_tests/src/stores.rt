//! Stores over disks in memory, of any machine: each function is proved from what every machine keeps.

use pc_base::{Bytes, CommitFault, Machine, StoreFault};
use pc_disk::{Choice, Disk, MemoryDisk};
use pc_store::{OpenFault, Store};
use std::alloc::Global;
use std::test::Fail;

/// Commits an entry to a store that may take it.
fn commit<M: Machine>(
    alloc: Global,
    store: &mut Store<M, MemoryDisk>,
    entry: M::Entry,
) -> Result<Result<u64, CommitFault>, Fail> {
    if store.is_broken() {
        return Err("whole".into());
    }
    if !store.state().allows(&entry) {
        return Err("allowed".into());
    }
    Ok(store.commit(alloc, entry))
}

/// A new store that took these entries.
pub fn store_of<M: Machine>(
    alloc: Global,
    entries: Vec<M::Entry>,
) -> Result<Store<M, MemoryDisk>, Fail> {
    let Ok(mut store) = Store::create(alloc, MemoryDisk::new(alloc)) else {
        return Err("made".into());
    };
    for entry in entries {
        if commit(alloc, &mut store, entry)?.is_err() {
            return Err("committed".into());
        }
    }
    Ok(store)
}

/// The bytes of area 0 of a new store that took these entries.
pub fn area_of<M: Machine>(alloc: Global, entries: Vec<M::Entry>) -> Result<Vec<u8>, Fail> {
    let store: Store<M, MemoryDisk> = store_of(alloc, entries)?;
    let mut disk = store.into_disk();
    let mut bytes = [0; 200];
    let count = disk.read(0, 0, &mut bytes)?;
    if disk.length(1)? > 0 {
        return Err("area 1 is left alone".into());
    }
    Ok(bytes[..count].to_vec(alloc)?)
}

/// How many entries opening finds on a disk, or why it is refused.
fn found_on<M: Machine>(alloc: Global, disk: MemoryDisk) -> Result<usize, StoreFault> {
    match Store::<M, MemoryDisk>::open_store(alloc, disk) {
        Ok(store) => Ok(store.trail().len()),
        Err(OpenFault { disk: _, cause }) => Err(cause),
    }
}

/// How many entries opening finds in these bytes as area 0, or why it is refused.
pub fn found_in<M: Machine>(alloc: Global, area: &[u8]) -> Result<Result<usize, StoreFault>, Fail> {
    let mut disk = MemoryDisk::new(alloc);
    disk.reserve(0, area.len() as u64)?;
    disk.write(0, 0, area)?;
    disk.sync()?;
    Ok(found_on::<M>(alloc, disk))
}

/// What a stop at the k-th device call of a commit behind these entries leaves: the answer, and how
/// many entries are found after a crash.
pub fn after_stop<M: Machine>(
    alloc: Global,
    entries: Vec<M::Entry>,
    entry: M::Entry,
    k: u32,
    choice: Choice,
) -> Result<(Result<u64, CommitFault>, usize), Fail> {
    if k == 0 {
        return Err("the first call is 1".into());
    }
    let mut store: Store<M, MemoryDisk> = store_of(alloc, entries)?;
    store.stop_at(k, choice);
    let answer = commit(alloc, &mut store, entry)?;
    let is_met = answer.is_err();
    if store.is_broken() != is_met || store.stopped() != is_met {
        return Err("broken where it stopped".into());
    }
    match found_on::<M>(alloc, store.into_disk().crashed()) {
        Ok(count) => Ok((answer, count)),
        Err(_) => Err("opened again".into()),
    }
}

/// What is seen of a commit that failed: whether the entry is in doubt, the number of the next entry
/// once the store is opened again, and whether the entry may come then.
#[derive(Clone, Copy, Debug, PartialEq, Eq)]
pub struct Aftermath {
    pub in_doubt: bool,
    pub next: u64,
    pub may_come: bool,
}

/// What follows a commit behind these entries whose k-th device call fails.
pub fn after_failure<M: Machine>(
    alloc: Global,
    entries: Vec<M::Entry>,
    entry: M::Entry,
    again: M::Entry,
    k: u32,
) -> Result<Aftermath, Fail> {
    if k == 0 {
        return Err("the first call is 1".into());
    }
    let mut store: Store<M, MemoryDisk> = store_of(alloc, entries)?;
    store.fail_at(k);
    if commit(alloc, &mut store, entry)? != Err(CommitFault::Device) {
        return Err("the device failed".into());
    }
    if !store.is_broken() {
        return Err("broken".into());
    }
    let in_doubt = store.doubt().is_some();
    open_again(alloc, &mut store)?;
    Ok(Aftermath {
        in_doubt,
        next: store.next(),
        may_come: goes_on(alloc, &mut store, again)?,
    })
}

/// Opens a broken store again.
fn open_again<M: Machine>(alloc: Global, store: &mut Store<M, MemoryDisk>) -> Result<(), Fail> {
    if store.reopen(alloc).is_err() {
        return Err("opened again".into());
    }
    if store.is_broken() || store.doubt().is_some() {
        return Err("whole again".into());
    }
    Ok(())
}

/// Whether the entry may come next; if so, it is committed.
fn goes_on<M: Machine>(
    alloc: Global,
    store: &mut Store<M, MemoryDisk>,
    entry: M::Entry,
) -> Result<bool, Fail> {
    if store.is_broken() {
        return Err("whole".into());
    }
    if !store.state().allows(&entry) {
        return Ok(false);
    }
    match commit(alloc, store, entry)? {
        Ok(_) => Ok(true),
        Err(_) => Err("goes on".into()),
    }
}

/// Folds a store that may be folded.
fn fold<M: Machine>(
    alloc: Global,
    store: &mut Store<M, MemoryDisk>,
) -> Result<Result<(), CommitFault>, Fail> {
    if store.is_broken() {
        return Err("whole".into());
    }
    Ok(store.fold(alloc))
}

/// A new store that took these entries, was folded, and took these behind.
pub fn folded_store<M: Machine>(
    alloc: Global,
    entries: Vec<M::Entry>,
    behind: Vec<M::Entry>,
) -> Result<Store<M, MemoryDisk>, Fail> {
    let mut store: Store<M, MemoryDisk> = store_of(alloc, entries)?;
    if fold(alloc, &mut store)?.is_err() {
        return Err("folded".into());
    }
    for entry in behind {
        if commit(alloc, &mut store, entry)?.is_err() {
            return Err("committed".into());
        }
    }
    Ok(store)
}

/// The bytes of area 1 of a store.
pub fn second_area_of<M: Machine>(
    alloc: Global,
    store: Store<M, MemoryDisk>,
) -> Result<Vec<u8>, Fail> {
    let mut disk = store.into_disk();
    let mut bytes = [0; 200];
    let count = disk.read(1, 0, &mut bytes)?;
    Ok(bytes[..count].to_vec(alloc)?)
}

/// The record of a store's state.
fn record_of<M: Machine>(alloc: Global, store: &Store<M, MemoryDisk>) -> Result<Bytes, Fail> {
    if store.is_broken() {
        return Err("whole".into());
    }
    let mut record = Bytes::new(alloc);
    store.state().save(&mut record)?;
    Ok(record)
}

/// How many entries a store has, and the number of the next one.
#[derive(Clone, Copy, Debug, PartialEq, Eq)]
pub struct Standing {
    pub entries: usize,
    pub next: u64,
}

/// The store that stands on a disk.
fn opened<M: Machine>(alloc: Global, disk: MemoryDisk) -> Result<Store<M, MemoryDisk>, Fail> {
    match Store::open_store(alloc, disk) {
        Ok(store) => Ok(store),
        Err(_) => Err("opened again".into()),
    }
}

/// What stands where a store is opened again; its record has to be this one.
fn found_again<M: Machine>(
    alloc: Global,
    disk: MemoryDisk,
    record: &Bytes,
) -> Result<Standing, Fail> {
    let store: Store<M, MemoryDisk> = opened(alloc, disk)?;
    let found = record_of(alloc, &store)?;
    if found.as_slice() != record.as_slice() {
        return Err("another record".into());
    }
    Ok(Standing {
        entries: store.trail().len(),
        next: store.next(),
    })
}

/// What stands after a fold and an opening.
pub fn after_fold<M: Machine>(
    alloc: Global,
    store: Store<M, MemoryDisk>,
) -> Result<Standing, Fail> {
    let mut store = store;
    let record = record_of(alloc, &store)?;
    if fold(alloc, &mut store)?.is_err() {
        return Err("folded".into());
    }
    found_again::<M>(alloc, store.into_disk(), &record)
}

/// What stands where the disk stops at the k-th device call of a fold: the answer, and what is found
/// after a crash.
pub fn after_stopped_fold<M: Machine>(
    alloc: Global,
    store: Store<M, MemoryDisk>,
    k: u32,
    choice: Choice,
) -> Result<(Result<(), CommitFault>, Standing), Fail> {
    if k == 0 {
        return Err("the first call is 1".into());
    }
    let mut store = store;
    let record = record_of(alloc, &store)?;
    store.stop_at(k, choice);
    let answer = fold(alloc, &mut store)?;
    if store.is_broken() != answer.is_err() {
        return Err("broken where it stopped".into());
    }
    let found = found_again::<M>(alloc, store.into_disk().crashed(), &record)?;
    Ok((answer, found))
}

/// What stands where the k-th device call of a fold fails and the store is opened again in place.
pub fn after_failed_fold<M: Machine>(
    alloc: Global,
    store: Store<M, MemoryDisk>,
    k: u32,
) -> Result<Standing, Fail> {
    if k == 0 {
        return Err("the first call is 1".into());
    }
    let mut store = store;
    let record = record_of(alloc, &store)?;
    store.fail_at(k);
    if fold(alloc, &mut store)?.is_ok() || !store.is_broken() {
        return Err("broken where it failed".into());
    }
    if store.reopen(alloc).is_err() {
        return Err("opened again in place".into());
    }
    found_again::<M>(alloc, store.into_disk(), &record)
}
