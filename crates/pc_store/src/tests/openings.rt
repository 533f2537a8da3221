//! What opening and making answer: for each front of an area, for each byte of it, and where the disk
//! fails or stops. The expected answers are worked out by hand.

ghost use Rattle.std.specs.Prelude.{◌-◌, ◌<◌, ◌⊎◌, [], ◌∷◌, ◌++◌, MatchOption};
ghost use Rattle.pc_store.specs.Opening.{OpensAs};

use super::tally::Tick;
use super::{
    AREA, CHOICES, TallyStore, answer_is, disk_of, flags_are, found_is, found_on, holds, mark,
    number_is, opened,
};
use crate::{OpenFault, Store};
use pc_base::{CommitFault, Machine, StoreFault};
use pc_disk::{Choice, MemoryDisk};
use std::alloc::Global;
use std::process::Abort;
use std::test::Fail;

/// What opening finds in these bytes.
fn finds(
    rt: &impl Abort,
    alloc: Global,
    row: usize,
    area: &[u8],
    wanted: Result<usize, StoreFault>,
) -> Result<(), Fail> {
    found_is(rt, row, found_on(alloc, disk_of(alloc, area)?), wanted);
    Ok(())
}

fn at(place: u64) -> Result<usize, StoreFault> {
    Err(StoreFault::Malformed { area: 0, place })
}

/// What is found in the first so many bytes of the area.
fn in_front(count: usize) -> Result<usize, StoreFault> {
    match count {
        0 | 1 => Err(StoreFault::NotMade),
        2..=8 => at(1),
        9 => at(9),
        10..=17 => at(10),
        18..=25 => at(18),
        26..=29 => at(26),
        30 => at(30),
        31 => at(31),
        32..=35 => at(32),
        36 => at(36),
        37 => at(37),
        38..=41 => at(38),
        42 => at(42),
        43 => at(43),
        _ => Ok(2),
    }
}

#[test]
fn each_front_of_an_area(rt: HostRuntime) -> Result<(), Fail> {
    for count in 0..AREA.len() + 1 {
        finds(&rt, rt.alloc(), count, &AREA[..count], in_front(count))?;
    }
    Ok(())
}

/// What is found where one byte of the area is 0, 1 or 255.
fn with_byte(place: usize, byte: u8) -> Result<usize, StoreFault> {
    match (place, byte) {
        (0, 0 | 255) => Err(StoreFault::NotMade),
        (1..=8, _) => at(1),
        (9, _) => at(9),
        (10, 255) | (17, 0) => at(10),
        (18, 255) | (25, 0) | (30, 1) => at(18),
        (26, 255) => at(26),
        (26..=28, 1 | 255) | (29, 0 | 255) | (30, 255) => at(30),
        (31, 0 | 255) => Ok(0),
        (32, 1 | 255) | (33, 255) | (35, 0) => at(32),
        (33, 1) | (34, 1 | 255) | (35, 255) => at(36),
        (37, 0 | 255) => Ok(1),
        (38, 1 | 255) | (39, 255) | (41, 0) => at(38),
        (39, 1) | (40, 1 | 255) | (41, 255) => at(42),
        (43, 1) => at(44),
        _ => Ok(2),
    }
}

/// The area with another byte at a place.
fn changed(alloc: Global, place: usize, byte: u8) -> Result<Vec<u8>, Fail> {
    let mut area = Vec::new(alloc);
    area.extend_from_slice(AREA)?;
    if let Some(changed) = area.get_mut(place) {
        *changed = byte;
    }
    Ok(area)
}

#[test]
fn each_byte_of_an_area(rt: HostRuntime) -> Result<(), Fail> {
    let alloc = rt.alloc();
    for place in 0..AREA.len() {
        for byte in &[0, 1, 255] {
            let area = changed(alloc, place, *byte)?;
            finds(&rt, alloc, place, &area, with_byte(place, *byte))?;
        }
    }
    Ok(())
}

/// An area with the first number, the count of the base, and entries.
fn area_of(alloc: Global, first: u64, count: u8, entries: &[&[u8]]) -> Result<Vec<u8>, Fail> {
    let mut area = Vec::new(alloc);
    area.extend_from_slice(&AREA[..18])?;
    area.extend_from_slice(&first.to_be_bytes())?;
    area.extend_from_slice(&[0, 0, 0, 1, count])?;
    for entry in entries {
        let Ok(size) = u32::try_from(entry.len()) else {
            return Err("a short entry".into());
        };
        area.push(1)?;
        area.extend_from_slice(&size.to_be_bytes())?;
        area.extend_from_slice(entry)?;
    }
    area.push(0)?;
    Ok(area)
}

/// What is found in such an area.
fn finds_behind(
    rt: &impl Abort,
    alloc: Global,
    first: u64,
    count: u8,
    entries: &[&[u8]],
    wanted: Result<usize, StoreFault>,
) -> Result<(), Fail> {
    let area = area_of(alloc, first, count, entries)?;
    finds(rt, alloc, usize::from(count), &area, wanted)
}

#[test]
fn the_first_fault_is_told(rt: HostRuntime) -> Result<(), Fail> {
    let alloc = rt.alloc();
    let last: u64 = (1 << 63) - 1;
    finds_behind(&rt, alloc, last, 0, &[&[7]], Ok(1))?;
    finds_behind(&rt, alloc, last, 0, &[&[7], &[9]], at(37))?;
    finds_behind(&rt, alloc, last + 1, 0, &[], Ok(0))?;
    finds_behind(&rt, alloc, last + 1, 0, &[&[7, 7]], at(31))?;
    finds_behind(&rt, alloc, 201, 199, &[&[7]], Ok(1))?;
    finds_behind(&rt, alloc, 201, 199, &[&[7], &[9], &[]], at(37))?;
    finds_behind(&rt, alloc, 1, 0, &[&[7], &[8, 8], &[]], at(42))?;
    finds_behind(&rt, alloc, 199, 199, &[&[]], at(18))
}

/// Opening is refused for the disk, which is handed back.
fn fails_to_open(alloc: Global, disk: MemoryDisk) -> Result<MemoryDisk, Fail> {
    match TallyStore::open_store(alloc, disk) {
        Err(
            OpenFault {
                disk,
                cause: StoreFault::Device,
            },
        ) => Ok(disk),
        _ => Err("the disk fails".into()),
    }
}

/// Opening stops at its one device call; and not at a second one.
fn opening_stops(rt: &impl Abort, alloc: Global, choice: Choice) -> Result<(), Fail> {
    let mut disk = disk_of(alloc, AREA)?;
    disk.stop_at(1, choice);
    let disk = fails_to_open(alloc, disk)?;
    holds(rt, "stopped", disk.stopped());
    let mut disk = disk.crashed();
    disk.stop_at(2, choice);
    found_is(rt, 2, found_on(alloc, disk), Ok(2));
    Ok(())
}

#[test]
fn opening_makes_one_device_call(rt: HostRuntime) -> Result<(), Fail> {
    for choice in &CHOICES {
        opening_stops(&rt, rt.alloc(), *choice)?;
    }
    Ok(())
}

#[test]
fn opening_fails_at_its_device_call(rt: HostRuntime) -> Result<(), Fail> {
    let alloc = rt.alloc();
    let mut disk = disk_of(alloc, AREA)?;
    disk.fail_at(1);
    let disk = fails_to_open(alloc, disk)?;
    found_is(&rt, 1, found_on(alloc, disk), Ok(2));
    Ok(())
}

#[test]
fn a_store_stays_broken_where_it_is_not_opened_again(rt: HostRuntime) -> Result<(), Fail> {
    let alloc = rt.alloc();
    let mut store = opened(alloc, AREA)?;
    store.fail_at(4);
    answer_is(
        &rt,
        4,
        mark(alloc, &mut store, 1)?,
        Err(CommitFault::Device),
    );
    store.fail_at(1);
    let fails = store.reopen(alloc) == Err(StoreFault::Device);
    holds(&rt, "the sync fails", fails);
    flags_are(&rt, 1, &store, true, true);
    holds(&rt, "the entry", store.doubt() == Some(&Tick { mark: 1 }));
    holds(&rt, "two entries", store.trail().len() == 2);
    store.fail_at(2);
    holds(&rt, "reopened", store.reopen(alloc) == Ok(()));
    flags_are(&rt, 2, &store, false, false);
    holds(&rt, "three entries", store.trail().len() == 3);
    number_is(&rt, "the next number", store.next(), 4);
    Ok(())
}

/// What making a store answers, as opening would, where the disk stops at the k-th device call; and what is
/// found after a crash.
fn after_stop(alloc: Global, k: u32, choice: Choice) -> [Result<usize, StoreFault>; 2]
    requires { 0 < k }
{
    let mut disk = MemoryDisk::new(alloc);
    disk.stop_at(k, choice);
    match TallyStore::create(alloc, disk) {
        Ok(store) => [
            Ok(store.trail().len()),
            found_on(alloc, store.into_disk().crashed()),
        ],
        Err(OpenFault { disk, cause }) => [Err(cause), found_on(alloc, disk.crashed())],
    }
}

/// The same where the k-th device call fails, with what is found without a crash.
fn after_failure(alloc: Global, k: u32) -> [Result<usize, StoreFault>; 2]
    requires { 0 < k }
{
    let mut disk = MemoryDisk::new(alloc);
    disk.fail_at(k);
    match TallyStore::create(alloc, disk) {
        Ok(store) => [Ok(store.trail().len()), found_on(alloc, store.into_disk())],
        Err(OpenFault { disk, cause }) => [Err(cause), found_on(alloc, disk)],
    }
}

/// What is found where the k-th device call fails and the disk crashes then.
fn after_both(alloc: Global, k: u32) -> Result<usize, StoreFault>
    requires { 0 < k }
{
    let mut disk = MemoryDisk::new(alloc);
    disk.fail_at(k);
    match TallyStore::create(alloc, disk) {
        Ok(store) => found_on(alloc, store.into_disk().crashed()),
        Err(OpenFault { disk, cause: _ }) => found_on(alloc, disk.crashed()),
    }
}

/// The disk stops at the k-th device call while a store is made: what making answers, and what is found
/// after a crash.
fn making_stops(
    rt: &impl Abort,
    alloc: Global,
    k: u32,
    choice: Choice,
    made: Result<usize, StoreFault>,
    found: Result<usize, StoreFault>,
)
    requires { 0 < k }
{
    let [answer, left] = after_stop(alloc, k, choice);
    found_is(rt, k as usize, answer, made);
    found_is(rt, k as usize, left, found);
}

const DEVICE: Result<usize, StoreFault> = Err(StoreFault::Device);

const UNMADE: Result<usize, StoreFault> = Err(StoreFault::NotMade);

#[test]
fn a_stop_while_a_store_is_made(rt: HostRuntime) {
    let alloc = rt.alloc();
    for choice in &CHOICES {
        for k in 1..6 {
            making_stops(&rt, alloc, k, *choice, DEVICE, UNMADE);
        }
        making_stops(&rt, alloc, 8, *choice, Ok(0), Ok(0));
    }
    for k in 6..8 {
        making_stops(&rt, alloc, k, Choice::Keep, DEVICE, Ok(0));
        making_stops(&rt, alloc, k, Choice::Lose, DEVICE, UNMADE);
        making_stops(&rt, alloc, k, Choice::Fill(0), DEVICE, UNMADE);
        making_stops(&rt, alloc, k, Choice::Fill(1), DEVICE, Ok(0));
    }
}

/// The k-th device call fails while a store is made: what making answers, what is found then, and what
/// after a crash.
fn making_fails(
    rt: &impl Abort,
    alloc: Global,
    k: u32,
    made: Result<usize, StoreFault>,
    found: Result<usize, StoreFault>,
    left: Result<usize, StoreFault>,
)
    requires { 0 < k }
{
    let [answer, now] = after_failure(alloc, k);
    found_is(rt, k as usize, answer, made);
    found_is(rt, k as usize, now, found);
    found_is(rt, k as usize, after_both(alloc, k), left);
}

#[test]
fn a_failure_while_a_store_is_made(rt: HostRuntime) {
    let alloc = rt.alloc();
    for k in 1..7 {
        making_fails(&rt, alloc, k, DEVICE, UNMADE, UNMADE);
    }
    making_fails(&rt, alloc, 7, DEVICE, Ok(0), UNMADE);
    // the eighth is the one that opening makes
    making_fails(&rt, alloc, 8, Ok(0), DEVICE, Ok(0));
}

/// Whatever was done with a store before: after a crash it opens as its history, with the entry in doubt
/// or without it, or as the head in doubt.
fn open_after_a_crash<M: Machine>(
    alloc: Global,
    store: Store<M, MemoryDisk>,
) -> Result<Store<M, MemoryDisk>, OpenFault<MemoryDisk>>
    ensures { OpensAs store.area store.head store.trail result ⊎ MatchOption store.doubt ⊥ (λ entry. OpensAs store.area store.head (store.trail ++ entry ∷ []) result) ⊎ MatchOption store.renewal ⊥ (λ head. OpensAs (1 - store.area) head [] result) }
{
    Store::open_store(alloc, store.into_disk().crashed())
}

#[test]
fn a_store_opens_after_a_crash(rt: HostRuntime) -> Result<(), Fail> {
    let store = opened(rt.alloc(), AREA)?;
    let Ok(store) = open_after_a_crash(rt.alloc(), store) else {
        return Err("opened again".into());
    };
    holds(&rt, "two entries", store.trail().len() == 2);
    Ok(())
}
