//! Offices that are full: each limit at its number and one past it.

use super::player::{gives, goes_on, repeats};
use crate::Office;
use std::alloc::Global;
use std::process::Abort;
use std::test::Fail;

#[test]
fn users_and_addresses(rt: HostRuntime) -> Result<(), Fail> {
    let mut office = Office::empty(rt.alloc())?;
    meets_names(&rt, rt.alloc(), &mut office)
}

#[test]
fn boards(rt: HostRuntime) -> Result<(), Fail> {
    let mut office = Office::empty(rt.alloc())?;
    meets_boards(&rt, rt.alloc(), &mut office)
}

#[test]
fn recipients(rt: HostRuntime) -> Result<(), Fail> {
    let mut office = Office::empty(rt.alloc())?;
    meets_recipients(&rt, rt.alloc(), &mut office)
}

#[test]
fn mails_that_wait(rt: HostRuntime) -> Result<(), Fail> {
    let mut office = Office::empty(rt.alloc())?;
    meets_mails(&rt, rt.alloc(), &mut office)
}

#[test]
fn weight_that_waits(rt: HostRuntime) -> Result<(), Fail> {
    let mut office = Office::empty(rt.alloc())?;
    meets_weight(&rt, rt.alloc(), &mut office)
}

#[test]
fn messages_of_a_board(rt: HostRuntime) -> Result<(), Fail> {
    let mut office = Office::empty(rt.alloc())?;
    meets_messages(&rt, rt.alloc(), &mut office)
}

#[test]
fn weight_of_all_boards(rt: HostRuntime) -> Result<(), Fail> {
    let mut office = Office::empty(rt.alloc())?;
    meets_board_weight(&rt, rt.alloc(), &mut office)
}

#[test]
fn addresses_before_users_are_full(rt: HostRuntime) -> Result<(), Fail> {
    let mut office = Office::empty(rt.alloc())?;
    meets_addresses(&rt, rt.alloc(), &mut office)
}

fn meets_names(rt: &impl Abort, alloc: Global, office: &mut Office) -> Result<(), Fail> {
    each(rt, alloc, office, "AddUser u", "", 31)?;
    each(rt, alloc, office, "Take a", " u0 inbox", 992)?;
    goes_on(rt, alloc, office, &NAMES)
}

fn meets_boards(rt: &impl Abort, alloc: Global, office: &mut Office) -> Result<(), Fail> {
    each(rt, alloc, office, "AddBoard b", "", 64)?;
    goes_on(rt, alloc, office, &BOARDS)
}

fn meets_recipients(rt: &impl Abort, alloc: Global, office: &mut Office) -> Result<(), Fail> {
    gives(rt, alloc, office, "AddUser ann", "ok")?;
    each(rt, alloc, office, "Take a", " ann inbox", 64)?;
    sends(rt, alloc, office, 64, "ok")?;
    sends(rt, alloc, office, 65, "418 Limit reached recipients")
}

fn meets_mails(rt: &impl Abort, alloc: Global, office: &mut Office) -> Result<(), Fail> {
    goes_on(rt, alloc, office, &BEGINNING)?;
    repeats(rt, alloc, office, "Send 0 ann", 1_023)?;
    goes_on(rt, alloc, office, &MAILS)
}

fn meets_weight(rt: &impl Abort, alloc: Global, office: &mut Office) -> Result<(), Fail> {
    goes_on(rt, alloc, office, &BEGINNING)?;
    repeats(rt, alloc, office, "Send 65 ann", 64)?;
    goes_on(rt, alloc, office, &WEIGHT)
}

fn meets_messages(rt: &impl Abort, alloc: Global, office: &mut Office) -> Result<(), Fail> {
    goes_on(rt, alloc, office, &BEGINNING)?;
    repeats(rt, alloc, office, "Send 0 news", 4_095)?;
    repeats(rt, alloc, office, "Send 0 bob", 1_024)?;
    goes_on(rt, alloc, office, &MESSAGES)
}

fn meets_board_weight(rt: &impl Abort, alloc: Global, office: &mut Office) -> Result<(), Fail> {
    each(rt, alloc, office, "AddBoard b", "", 64)?;
    fill_boards(rt, alloc, office)?;
    goes_on(rt, alloc, office, &BOARD_WEIGHT)
}

/// Sends 16 mails of 65 lines to each of 64 boards.
fn fill_boards(rt: &impl Abort, alloc: Global, office: &mut Office) -> Result<(), Fail> {
    let line = with_names(alloc, "Send 65 ", "b", 64)?;
    repeats(rt, alloc, office, &line, 16)
}

fn meets_addresses(rt: &impl Abort, alloc: Global, office: &mut Office) -> Result<(), Fail> {
    gives(rt, alloc, office, "AddUser ann", "ok")?;
    each(rt, alloc, office, "Take a", " ann inbox", 1_023)?;
    goes_on(rt, alloc, office, &ADDRESSES)
}

/// Plays a line for so many names, each with a number between the two parts.
fn each(
    rt: &impl Abort,
    alloc: Global,
    office: &mut Office,
    front: &str,
    back: &str,
    count: u32,
) -> Result<(), Fail> {
    for place in 0..count {
        let line = format!(in alloc; "{front}{place}{back}")?;
        gives(rt, alloc, office, &line, "ok")?;
    }
    Ok(())
}

/// Sends a mail to so many names, and looks whether that gives this answer.
fn sends(
    rt: &impl Abort,
    alloc: Global,
    office: &mut Office,
    count: u32,
    want: &str,
) -> Result<(), Fail> {
    let line = with_names(alloc, "Send 0 ", "a", count)?;
    gives(rt, alloc, office, &line, want)
}

/// A line with so many names behind its front, each with its number and a comma.
fn with_names(alloc: Global, front: &str, name: &str, count: u32) -> Result<String, Fail> {
    let mut line = String::from_str(alloc, front)?;
    for place in 0..count {
        add_name(alloc, &mut line, name, place)?;
    }
    Ok(line)
}

fn add_name(alloc: Global, line: &mut String, name: &str, place: u32) -> Result<(), Fail> {
    let item = format!(in alloc; "{name}{place},")?;
    Ok(line.push_str(&item)?)
}

const NAMES: [(&str, &str); 7] = [
    ("AddUser last", "ok"),
    ("AddUser more", "418 Limit reached users"),
    ("AddUser u0", "415 Address taken"),
    ("Take more last inbox", "418 Limit reached addresses"),
    ("Take more eve inbox", "414 No such address"),
    ("Take u0 last inbox", "415 Address taken"),
    ("AddBoard more", "ok"),
];

const ADDRESSES: [(&str, &str); 4] = [
    ("AddUser bob", "418 Limit reached addresses"),
    ("Drop a7 ann", "ok"),
    ("AddUser bob", "ok"),
    ("Take a7 bob inbox", "418 Limit reached addresses"),
];

const BOARDS: [(&str, &str); 2] = [
    ("AddBoard more", "418 Limit reached boards"),
    ("AddBoard b0", "415 Address taken"),
];

const BEGINNING: [(&str, &str); 3] = [
    ("AddUser ann", "ok"),
    ("AddUser bob", "ok"),
    ("AddBoard news", "ok"),
];

/// A mail for a user for whom as many wait as may isn't accepted for the other one either.
const MAILS: [(&str, &str); 11] = [
    ("Told ann 0", "64"),
    ("Told ann 959", "64"),
    ("Told ann 960", "63"),
    ("Send 0 ann", "ok"),
    ("Send 0 ann", "418 Limit reached waiting"),
    ("Send 0 bob, ann", "418 Limit reached waiting"),
    ("Send 0 bob", "ok"),
    ("Pulled ann 1", "ok"),
    ("Send 0 ann", "ok"),
    ("Send 0 ann", "418 Limit reached waiting"),
    ("Accepted", "1026"),
];

/// Each mail has 65 lines of 1,000 bytes, `To: ann` with 9 and an empty one with 2: it weighs
/// 65,267, and 64 of them 4,177,088, which leaves 17,216. One of 16 lines weighs 16,267; with 949
/// commas behind the name it weighs just what is left.
const WEIGHT: [(&str, &str); 7] = [
    ("Send 65 ann", "418 Limit reached waiting"),
    ("Send 17 ann", "418 Limit reached waiting"),
    ("Commas 950 16 ann", "418 Limit reached waiting"),
    ("Commas 949 16 ann", "ok"),
    ("Send 0 ann", "418 Limit reached waiting"),
    ("Pulled ann 1", "ok"),
    ("Send 65 ann", "ok"),
];

/// With 64 names the field has 250 bytes, so each mail weighs 65,510, and 16 on 64 boards weigh
/// 67,082,240, which leaves 26,624. A mail to two boards counts twice.
const BOARD_WEIGHT: [(&str, &str); 5] = [
    ("Send 27 b0", "418 Limit reached board"),
    ("Send 14 b0,b1", "418 Limit reached board"),
    ("Send 13 b0,b1", "ok"),
    ("Board b1", "17"),
    ("Board b2", "16"),
];

const MESSAGES: [(&str, &str); 5] = [
    ("Send 0 news", "ok"),
    ("Send 0 news, bob", "418 Limit reached waiting"),
    ("Send 0 news", "418 Limit reached board"),
    ("Send 0 ann, news", "418 Limit reached board"),
    ("Board news", "4096"),
];
