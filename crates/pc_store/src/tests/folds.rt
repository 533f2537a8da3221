//! Folds that end, stop or fail at each device call, and which of two areas opening finds.

ghost use Rattle.std.specs.Prelude.{◌<◌};

use super::tally::Tick;
use super::{
    AREA, CHOICES, LATER, TallyStore, answer_is, disk_of_both, flags_are, found_is, found_on,
    holds, mark, number_is, opened, reads, room_is, state_is, trail_is,
};
use pc_base::{CommitFault, StoreFault};
use pc_disk::Choice;
use std::alloc::Global;
use std::process::Abort;
use std::test::Fail;

/// The area of a tally of generation 2^63 - 1 and no marks.
const LAST_AREA: &[u8] =
    b"\x01PCMAIL1\x0a\x02\x7f\xff\xff\xff\xff\xff\xff\xff\x00\x00\x00\x00\x00\x00\x00\x01\x00\x00\x00\x01\x00\x00";

/// Area 1 after the fold of two marks and a third one.
const FOLDED: &[u8] =
    b"\x01PCMAIL1\x0a\x02\x00\x00\x00\x00\x00\x00\x00\x02\x00\x00\x00\x00\x00\x00\x00\x03\x00\x00\x00\x01\x02\x01\x00\x00\x00\x01\x05\x00";

/// Area 0 after the fold of all three.
const FOLDED_AGAIN: &[u8] =
    b"\x01PCMAIL1\x0a\x02\x00\x00\x00\x00\x00\x00\x00\x03\x00\x00\x00\x00\x00\x00\x00\x04\x00\x00\x00\x01\x03\x00";

/// Folds a store that may be folded.
fn fold(alloc: Global, store: &mut TallyStore) -> Result<Result<(), CommitFault>, Fail> {
    if store.is_broken() {
        return Err("may be folded".into());
    }
    Ok(store.fold(alloc))
}

fn fold_is(
    rt: &impl Abort,
    row: u32,
    found: Result<(), CommitFault>,
    wanted: Result<(), CommitFault>,
) {
    assert_eq!(rt; found, wanted, "{row}");
}

/// What opening finds in these two areas.
fn finds(
    rt: &impl Abort,
    alloc: Global,
    row: usize,
    first: &[u8],
    second: &[u8],
    wanted: Result<usize, StoreFault>,
) -> Result<(), Fail> {
    found_is(
        rt,
        row,
        found_on(alloc, disk_of_both(alloc, first, second)?),
        wanted,
    );
    Ok(())
}

#[test]
fn a_fold_keeps_the_state_and_the_numbers(rt: HostRuntime) -> Result<(), Fail> {
    let alloc = rt.alloc();
    let mut store = opened(alloc, AREA)?;
    fold_is(&rt, 1, fold(alloc, &mut store)?, Ok(()));
    state_is(&rt, &store, 2, 3);
    trail_is(&rt, &store, &[]);
    number_is(&rt, "the first number", store.first(), 3);
    room_is(&rt, &store, 65_536, 16_777_216);
    answer_is(&rt, 1, mark(alloc, &mut store, 5)?, Ok(3));
    state_is(&rt, &store, 3, 4);
    Ok(())
}

/// The disk of a store that is folded, takes a third mark, and is folded again as often as is said.
fn folded(alloc: Global, again: u8) -> Result<TallyStore, Fail> {
    let mut store = opened(alloc, AREA)?;
    let Ok(()) = fold(alloc, &mut store)? else {
        return Err("folded".into());
    };
    let Ok(3) = mark(alloc, &mut store, 5)? else {
        return Err("a third mark".into());
    };
    for _ in 0..again {
        let Ok(()) = fold(alloc, &mut store)? else {
            return Err("folded again".into());
        };
    }
    Ok(store)
}

#[test]
fn a_fold_is_made_byte_for_byte(rt: HostRuntime) -> Result<(), Fail> {
    let alloc = rt.alloc();
    let mut disk = folded(alloc, 0)?.into_disk();
    holds(&rt, "the older area", reads(&mut disk, 0, AREA));
    holds(&rt, "the area", reads(&mut disk, 1, FOLDED));
    let mut disk = folded(alloc, 1)?.into_disk();
    holds(&rt, "the area again", reads(&mut disk, 0, FOLDED_AGAIN));
    holds(&rt, "the older area again", reads(&mut disk, 1, FOLDED));
    Ok(())
}

#[test]
fn a_fold_is_opened_again(rt: HostRuntime) -> Result<(), Fail> {
    let alloc = rt.alloc();
    found_is(
        &rt,
        0,
        found_on(alloc, folded(alloc, 0)?.into_disk()),
        Ok(1),
    );
    found_is(
        &rt,
        1,
        found_on(alloc, folded(alloc, 1)?.into_disk()),
        Ok(0),
    );
    found_is(
        &rt,
        2,
        found_on(alloc, folded(alloc, 2)?.into_disk()),
        Ok(0),
    );
    let mut store = folded(alloc, 2)?;
    holds(&rt, "opened again", store.reopen(alloc) == Ok(()));
    state_is(&rt, &store, 3, 4);
    number_is(&rt, "the first number", store.first(), 4);
    Ok(())
}

/// A fold in which the disk stops at the k-th device call: what it answers, and how many entries a crash
/// leaves.
fn stops_at(
    rt: &impl Abort,
    alloc: Global,
    store: TallyStore,
    k: u32,
    choice: Choice,
    answer: Result<(), CommitFault>,
    left: usize,
) -> Result<(), Fail>
    requires { 0 < k }
{
    let mut store = store;
    store.stop_at(k, choice);
    fold_is(rt, k, fold(alloc, &mut store)?, answer);
    flags_are(rt, k, &store, answer.is_err(), false);
    let crashed = store.into_disk().crashed();
    found_is(rt, k as usize, found_on(alloc, crashed), Ok(left));
    Ok(())
}

const DEVICE: Result<(), CommitFault> = Err(CommitFault::Device);

/// Folds stop at each of so many calls, of which the last two open the gate; over a store of so many entries,
/// folded so often before.
fn stops_at_each(
    rt: &impl Abort,
    alloc: Global,
    again: u8,
    calls: u32,
    old: usize,
) -> Result<(), Fail>
    requires least { 2 < calls }
    requires most { calls < 100 }
{
    for choice in &CHOICES {
        for k in 1..calls - 1 {
            stops_at(rt, alloc, folded(alloc, again)?, k, *choice, DEVICE, old)?;
        }
        stops_at(
            rt,
            alloc,
            folded(alloc, again)?,
            calls + 1,
            *choice,
            Ok(()),
            0,
        )?;
    }
    for k in calls - 1..calls + 1 {
        stops_at(rt, alloc, folded(alloc, again)?, k, Choice::Keep, DEVICE, 0)?;
        stops_at(
            rt,
            alloc,
            folded(alloc, again)?,
            k,
            Choice::Lose,
            DEVICE,
            old,
        )?;
        stops_at(
            rt,
            alloc,
            folded(alloc, again)?,
            k,
            Choice::Fill(0),
            DEVICE,
            old,
        )?;
        stops_at(
            rt,
            alloc,
            folded(alloc, again)?,
            k,
            Choice::Fill(1),
            DEVICE,
            0,
        )?;
    }
    Ok(())
}

#[test]
fn a_stop_at_each_call_of_a_fold(rt: HostRuntime) -> Result<(), Fail> {
    stops_at_each(&rt, rt.alloc(), 0, 8, 1)
}

/// A fold into an area that was never made fails at the k-th device call. Opened again the store has so many
/// entries, and the next one gets the third number.
fn fails_at(rt: &impl Abort, alloc: Global, k: u32, count: usize) -> Result<(), Fail>
    requires { 0 < k }
{
    let mut store = opened(alloc, AREA)?;
    store.fail_at(k);
    fold_is(rt, k, fold(alloc, &mut store)?, DEVICE);
    flags_are(rt, k, &store, true, false);
    trail_is(rt, &store, &[Tick { mark: 7 }, Tick { mark: 9 }]);
    holds(rt, "reopened", store.reopen(alloc) == Ok(()));
    flags_are(rt, k, &store, false, false);
    holds(rt, "entries", store.trail().len() == count);
    state_is(rt, &store, 2, 3);
    answer_is(rt, k, mark(alloc, &mut store, 5)?, Ok(3));
    Ok(())
}

#[test]
fn a_failure_at_each_call_of_a_fold(rt: HostRuntime) -> Result<(), Fail> {
    let alloc = rt.alloc();
    for k in 1..6 {
        fails_at(&rt, alloc, k, 2)?;
    }
    fails_at(&rt, alloc, 6, 0)
}

#[test]
fn the_last_generation_is_not_folded(rt: HostRuntime) -> Result<(), Fail> {
    let alloc = rt.alloc();
    let mut store = opened(alloc, LAST_AREA)?;
    answer_is(&rt, 1, mark(alloc, &mut store, 7)?, Ok(1));
    fold_is(&rt, 1, fold(alloc, &mut store)?, Err(CommitFault::Full));
    flags_are(&rt, 1, &store, false, false);
    trail_is(&rt, &store, &[Tick { mark: 7 }]);
    answer_is(&rt, 2, mark(alloc, &mut store, 7)?, Ok(2));
    Ok(())
}

/// The area with another byte at a place.
fn changed(alloc: Global, area: &[u8], place: usize, byte: u8) -> Result<Vec<u8>, Fail> {
    let mut changed = Vec::new(alloc);
    changed.extend_from_slice(area)?;
    if let Some(at) = changed.get_mut(place) {
        *at = byte;
    }
    Ok(changed)
}

fn at(area: u8, place: u64) -> Result<usize, StoreFault> {
    Err(StoreFault::Malformed { area, place })
}

#[test]
fn the_area_of_the_greater_generation_is_opened(rt: HostRuntime) -> Result<(), Fail> {
    let alloc = rt.alloc();
    finds(&rt, alloc, 0, AREA, LATER, Ok(0))?;
    finds(&rt, alloc, 1, LATER, AREA, Ok(0))?;
    finds(&rt, alloc, 2, AREA, b"", Ok(2))?;
    finds(&rt, alloc, 3, b"", AREA, Ok(2))?;
    finds(
        &rt,
        alloc,
        4,
        b"\x01",
        b"\x00\x00",
        Err(StoreFault::NotMade),
    )?;
    finds(&rt, alloc, 5, AREA, AREA, at(1, 10))?;
    finds(&rt, alloc, 6, LATER, LATER, at(1, 10))
}

#[test]
fn a_fault_in_either_head_is_told(rt: HostRuntime) -> Result<(), Fail> {
    let alloc = rt.alloc();
    let unnamed = changed(alloc, AREA, 5, 0)?;
    finds(&rt, alloc, 0, &unnamed, LATER, at(0, 1))?;
    finds(&rt, alloc, 1, LATER, &unnamed, at(1, 1))?;
    finds(&rt, alloc, 2, b"", &unnamed, at(1, 1))?;
    let long = changed(alloc, AREA, 26, 255)?;
    finds(&rt, alloc, 3, &long, &unnamed, at(0, 26))?;
    finds(&rt, alloc, 4, &AREA[..20], LATER, at(0, 18))
}

#[test]
fn of_the_older_area_only_the_numbers_are_read(rt: HostRuntime) -> Result<(), Fail> {
    let alloc = rt.alloc();
    let bad_base = changed(alloc, AREA, 30, 255)?;
    finds(&rt, alloc, 0, &bad_base, LATER, Ok(0))?;
    finds(&rt, alloc, 1, LATER, &bad_base, Ok(0))?;
    finds(&rt, alloc, 2, &bad_base, b"", at(0, 30))?;
    finds(&rt, alloc, 3, b"", &bad_base, at(1, 30))?;
    finds(&rt, alloc, 4, &AREA[..30], LATER, Ok(0))
}
