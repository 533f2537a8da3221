//! Folding: the bytes that stand then, and what a stop or a failure at each device call leaves. The expected
//! answers are worked out by hand.

use super::accounts::{first_entries, make};
use super::offices;
use super::stores::{
    Standing, after_failed_fold, after_fold, after_stopped_fold, folded_store, second_area_of,
    store_of,
};
use pc_account::{Account, Entry};
use pc_base::{CommitFault, Lines, Name};
use pc_disk::Choice;
use pc_message::{Letters, Message};
use pc_office::Office;
use std::alloc::Global;
use std::process::Abort;
use std::test::Fail;

/// Area 1 after the first two entries of ann were folded: the gate; `PCMAIL1` and LF; kind, generation, first
/// number and the length of the base; no mail pulled, the digest, no client, the mailbox `inbox` with nothing in
/// it, no subscription; and the closed gate.
const ACCOUNT: &[u8] = b"\x01PCMAIL1\x0a\
\x01\x00\x00\x00\x00\x00\x00\x00\x02\x00\x00\x00\x00\x00\x00\x00\x03\x00\x00\x00\x40\
\x00\x00\x00\x00\x00\x00\x00\x00\
\x01\xc9\x40\x3a\x3b\x84\x00\x81\x8d\x87\xdf\xc4\x75\x58\xba\xcd\xbb\
\x69\x6f\x4e\x16\xa5\x90\x74\x4e\x03\x90\xc1\x11\x33\x69\xd2\x30\
\x00\x00\x00\x01\x05inbox\x01\x00\x00\x00\x00\x00\x00\x00\x00\x00\x00\x00\x00\
\x00";

/// Area 1 after the user ann and an empty mail to her were folded: the user and what is noted, her own name as an
/// address for her inbox, no board, one accepted mail, and that it waits for ann's inbox.
const OFFICE: &[u8] = b"\x01PCMAIL1\x0a\
\x02\x00\x00\x00\x00\x00\x00\x00\x02\x00\x00\x00\x00\x00\x00\x00\x03\x00\x00\x00\x44\
\x00\x01\x03ann\x00\x00\x00\x00\x00\x00\x00\x00\x00\x01\x03ann\x03ann\x05inbox\x00\x00\
\x00\x00\x00\x00\x00\x00\x00\x01\x00\x00\x00\x01\
\x00\x00\x00\x00\x00\x00\x00\x01\x00\x01\x03ann\x05inbox\x00\x00\x00\x00\
\x00";

// Asserts that these bytes are the wanted ones.
fn same(rt: &impl Abort, found: &[u8], wanted: &[u8]) {
    assert_eq!(rt; found, wanted);
}

// Asserts what a fold that stops at the k-th call leaves: the answer, and how many entries.
fn leaves(
    rt: &impl Abort,
    k: u32,
    found: (Result<(), CommitFault>, Standing),
    is_done: bool,
    wanted: Standing,
) {
    assert_eq!(rt; (found.0.is_ok(), found.1), (is_done, wanted), "call {k}");
}

// Asserts what stands.
fn stands(rt: &impl Abort, row: u32, found: Standing, wanted: Standing) {
    assert_eq!(rt; found, wanted, "row {row}");
}

#[test]
fn folded_areas_byte_for_byte(rt: HostRuntime) -> Result<(), Fail> {
    let alloc = rt.alloc();
    let account = folded_store::<Account>(alloc, first_entries(alloc)?, Vec::new(alloc))?;
    same(&rt, &second_area_of(alloc, account)?, ACCOUNT);
    let office = folded_store::<Office>(alloc, offices::first_entries(alloc)?, Vec::new(alloc))?;
    same(&rt, &second_area_of(alloc, office)?, OFFICE);
    Ok(())
}

/// How many entries are found after a stop at a device call, by what the crash does with the bytes that weren't
/// synced: keeps them, loses them, or fills their places with open or closed gates.
const CHOICES: [Choice; 4] = [Choice::Keep, Choice::Lose, Choice::Fill(1), Choice::Fill(0)];

#[test]
fn a_fold_stops_at_each_call(rt: HostRuntime) -> Result<(), Fail> {
    let alloc = rt.alloc();
    // area 1 is empty: it is closed, filled, and opened
    let rows = [
        (1, [2, 2, 2, 2]),
        (2, [2, 2, 2, 2]),
        (3, [2, 2, 2, 2]),
        (4, [2, 2, 2, 2]),
        (5, [0, 2, 0, 2]),
        (6, [0, 2, 0, 2]),
        (7, [0, 0, 0, 0]),
    ];
    for (k, counts) in rows {
        for (choice, entries) in CHOICES.iter().zip(counts.iter()) {
            let store = store_of::<Account>(alloc, first_entries(alloc)?)?;
            let found = after_stopped_fold(alloc, store, k, *choice)?;
            leaves(
                &rt,
                k,
                found,
                k == 7,
                Standing {
                    entries: *entries,
                    next: 3,
                },
            );
        }
    }
    Ok(())
}

#[test]
fn a_second_fold_stops_at_each_call(rt: HostRuntime) -> Result<(), Fail> {
    let alloc = rt.alloc();
    // area 0 is open: it is closed, cut, filled, and opened
    let rows = [
        (1, [1, 1, 1, 1]),
        (2, [1, 1, 1, 1]),
        (3, [1, 1, 1, 1]),
        (4, [1, 1, 1, 1]),
        (5, [1, 1, 1, 1]),
        (6, [1, 1, 1, 1]),
        (7, [0, 1, 0, 1]),
        (8, [0, 1, 0, 1]),
        (9, [0, 0, 0, 0]),
    ];
    for (k, counts) in rows {
        for (choice, entries) in CHOICES.iter().zip(counts.iter()) {
            let mut behind = Vec::new(alloc);
            behind.push(make(b"work")?)?;
            let store = folded_store::<Account>(alloc, first_entries(alloc)?, behind)?;
            let found = after_stopped_fold(alloc, store, k, *choice)?;
            leaves(
                &rt,
                k,
                found,
                k == 9,
                Standing {
                    entries: *entries,
                    next: 4,
                },
            );
        }
    }
    Ok(())
}

#[test]
fn a_fold_fails_at_each_call(rt: HostRuntime) -> Result<(), Fail> {
    let alloc = rt.alloc();
    // where the last sync has failed the gate is open already, and stands in what is read
    for (k, entries) in [(1, 2), (2, 2), (3, 2), (4, 2), (5, 2), (6, 0)] {
        let store = store_of::<Office>(alloc, offices::first_entries(alloc)?)?;
        let found = after_failed_fold(alloc, store, k)?;
        stands(&rt, k, found, Standing { entries, next: 3 });
    }
    Ok(())
}

/// Password, inbox, one pull of one mail, and 60,000 changes of its flag 1, which set it and take it away in turn.
fn many_entries(alloc: Global) -> Result<Vec<Entry>, Fail> {
    let inbox = Name::inbox();
    let message = Message::of(Lines::new(alloc)).ok().ok_or("a message")?;
    let mut letters = Letters::new(alloc);
    letters.push((inbox, message))?;
    let mut entries = first_entries(alloc)?;
    entries.push(Entry::Pull { upto: 1, letters })?;
    for number in 0..60_000u32 {
        entries.push(Entry::Flag {
            mailbox: inbox,
            uid: 1,
            flag: 1,
            on: number % 2 == 0,
        })?;
    }
    Ok(entries)
}

#[test]
fn sixty_thousand_flags_are_folded(rt: HostRuntime) -> Result<(), Fail> {
    let alloc = rt.alloc();
    let store = store_of::<Account>(alloc, many_entries(alloc)?)?;
    let found = after_fold(alloc, store)?;
    stands(
        &rt,
        1,
        found,
        Standing {
            entries: 0,
            next: 60_004,
        },
    );
    Ok(())
}
