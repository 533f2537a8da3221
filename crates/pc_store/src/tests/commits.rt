//! Commits that end, stop or fail at each device call.

ghost use Rattle.std.specs.Prelude.{◌<◌};

use super::tally::Tick;
use super::{
    AREA, CHOICES, TallyStore, answer_is, flags_are, holds, mark, number_is, opened, room_is,
    state_is, trail_is,
};
use pc_base::CommitFault;
use pc_disk::{Choice, Disk};
use std::alloc::Global;
use std::process::Abort;
use std::test::Fail;

/// The area of a tally of no marks whose next entry has the last number: the gate, `PCMAIL1` and LF,
/// kind, generation, first number, length of the base, base, and the closed gate.
const LAST_AREA: &[u8] =
    b"\x01PCMAIL1\x0a\x02\x00\x00\x00\x00\x00\x00\x00\x01\x7f\xff\xff\xff\xff\xff\xff\xff\x00\x00\x00\x01\x00\x00";

/// The trail of the area, and with the third mark.
const WITHOUT: &[Tick] = &[Tick { mark: 7 }, Tick { mark: 9 }];

const WITH: &[Tick] = &[Tick { mark: 7 }, Tick { mark: 9 }, Tick { mark: 1 }];

const DEVICE: Result<u64, CommitFault> = Err(CommitFault::Device);

/// What a crash leaves of a store has these entries.
fn crash_leaves(
    rt: &impl Abort,
    alloc: Global,
    store: TallyStore,
    wanted: &[Tick],
) -> Result<(), Fail> {
    let Ok(store) = TallyStore::open_store(alloc, store.into_disk().crashed()) else {
        return Err("opened again".into());
    };
    trail_is(rt, &store, wanted);
    Ok(())
}

/// The third commit, in which the disk stops at the k-th device call: what it answers, whether the entry is
/// in doubt, and what a crash leaves.
fn stops_at(
    rt: &impl Abort,
    alloc: Global,
    k: u32,
    choice: Choice,
    answer: Result<u64, CommitFault>,
    in_doubt: bool,
    left: &[Tick],
) -> Result<(), Fail>
    requires { 0 < k }
{
    let mut store = opened(alloc, AREA)?;
    store.stop_at(k, choice);
    answer_is(rt, k, mark(alloc, &mut store, 1)?, answer);
    flags_are(rt, k, &store, answer.is_err(), in_doubt);
    holds(rt, "stopped", store.stopped() == answer.is_err());
    holds(
        rt,
        "the entry",
        !in_doubt || store.doubt() == Some(&Tick { mark: 1 }),
    );
    crash_leaves(rt, alloc, store, left)
}

#[test]
fn a_stop_before_the_third_call(rt: HostRuntime) -> Result<(), Fail> {
    let alloc = rt.alloc();
    for choice in &CHOICES {
        stops_at(&rt, alloc, 1, *choice, DEVICE, false, WITHOUT)?;
        stops_at(&rt, alloc, 2, *choice, DEVICE, false, WITHOUT)?;
    }
    Ok(())
}

#[test]
fn a_stop_from_the_third_call_on(rt: HostRuntime) -> Result<(), Fail> {
    let alloc = rt.alloc();
    for k in 3..5 {
        stops_at(&rt, alloc, k, Choice::Keep, DEVICE, true, WITH)?;
        stops_at(&rt, alloc, k, Choice::Lose, DEVICE, true, WITHOUT)?;
        stops_at(&rt, alloc, k, Choice::Fill(0), DEVICE, true, WITHOUT)?;
        stops_at(&rt, alloc, k, Choice::Fill(1), DEVICE, true, WITH)?;
    }
    Ok(())
}

#[test]
fn a_stop_at_a_fifth_call_is_not_met(rt: HostRuntime) -> Result<(), Fail> {
    let alloc = rt.alloc();
    for choice in &CHOICES {
        stops_at(&rt, alloc, 5, *choice, Ok(3), false, WITH)?;
    }
    Ok(())
}

/// The third commit fails at the k-th device call. Opened again the store has so many entries, and the next
/// one gets this number.
fn fails_at(
    rt: &impl Abort,
    alloc: Global,
    k: u32,
    in_doubt: bool,
    count: u8,
    number: u64,
) -> Result<(), Fail>
    requires { 0 < k }
{
    let mut store = opened(alloc, AREA)?;
    store.fail_at(k);
    answer_is(rt, k, mark(alloc, &mut store, 1)?, DEVICE);
    flags_are(rt, k, &store, true, in_doubt);
    holds(rt, "stopped", !store.stopped());
    trail_is(rt, &store, WITHOUT);
    number_is(rt, "the next number", store.next(), 3);
    holds(rt, "reopened", store.reopen(alloc) == Ok(()));
    flags_are(rt, k, &store, false, false);
    holds(rt, "entries", store.trail().len() == usize::from(count));
    state_is(rt, &store, count, number);
    answer_is(rt, k, mark(alloc, &mut store, 5)?, Ok(number));
    Ok(())
}

#[test]
fn a_failure_at_each_call(rt: HostRuntime) -> Result<(), Fail> {
    let alloc = rt.alloc();
    fails_at(&rt, alloc, 1, false, 2, 3)?;
    fails_at(&rt, alloc, 2, false, 2, 3)?;
    fails_at(&rt, alloc, 3, true, 2, 3)?;
    fails_at(&rt, alloc, 4, true, 3, 4)
}

#[test]
fn the_last_number_is_given_once(rt: HostRuntime) -> Result<(), Fail> {
    let alloc = rt.alloc();
    let mut store = opened(alloc, LAST_AREA)?;
    room_is(&rt, &store, 1, 16_777_216);
    answer_is(
        &rt,
        1,
        mark(alloc, &mut store, 7)?,
        Ok(9_223_372_036_854_775_807),
    );
    room_is(&rt, &store, 0, 16_777_215);
    answer_is(&rt, 2, mark(alloc, &mut store, 7)?, Err(CommitFault::Full));
    flags_are(&rt, 2, &store, false, false);
    trail_is(&rt, &store, &[Tick { mark: 7 }]);
    number_is(
        &rt,
        "the next number",
        store.next(),
        9_223_372_036_854_775_808,
    );
    holds(&rt, "the length", store.into_disk().length(0) == Ok(38));
    Ok(())
}
