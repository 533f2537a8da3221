//! Events, one after the other in a world.

use super::*;
use pc_base::Printed;
use std::alloc::Global;
use std::process::Abort;
use std::test::Fail;

/// Lines in turn, and the text that each prints.
static DAY: [(&[u8], &[u8]); 17] = [
    (b"", b""),
    (b"# a day", b""),
    (b"user ann sesame", b"user ann: 200 Ok\n"),
    (b"ask ann CREATE-MAILBOX work", b"ask ann: 200 Ok\n"),
    (
        b"ask ann create-mailbox work",
        b"ask ann: 410 Mailbox exists\n",
    ),
    (b"ask ann CREATE-MAILBOX Work", b"ask ann: 411 Bad name\n"),
    (b"ask ann CREATE-MAILBOX", b"ask ann: 401 Wrong arguments\n"),
    (
        b"ask ann CREATE-MAILBOX inbox",
        b"ask ann: 410 Mailbox exists\n",
    ),
    (
        b"ask ann SET-MESSAGE-FLAG 1 16 1",
        b"ask ann: 413 No such flag\n",
    ),
    (b"ask ann", b"ask ann: 400 Unknown operation\n"),
    (b"ask ann HELP", b"ask ann: 400 Unknown operation\n"),
    (
        b"ask ann LIST-MAILBOXES",
        b"ask ann: 201 List follows\n  inbox 0 0\n  work 0 0\n",
    ),
    (b"user ann other", b"user ann: 415 Address taken\n"),
    (b"user bob open", b"user bob: 200 Ok\n"),
    (
        b"  ask   bob   LIST-MAILBOXES  ",
        b"ask bob: 201 List follows\n  inbox 0 0\n",
    ),
    (b"ask bob CREATE-MAILBOX work", b"ask bob: 200 Ok\n"),
    (b"#", b""),
];

/// Lines that are no event.
static BAD: [&[u8]; 10] = [
    b" ",
    b" # x",
    b"what",
    b"USER ann sesame",
    b"user ann",
    b"user ann sesame more",
    b"user Ann sesame",
    b"user 1a sesame",
    b"ask",
    b"ask Ann HELP",
];

/// Asserts that these bytes are the wanted ones.
fn same(rt: &impl Abort, line: &[u8], found: &[u8], wanted: &[u8]) {
    assert_eq!(rt; found, wanted, "at {line:?}");
}

/// Asserts what is true at a line.
fn holds(rt: &impl Abort, line: &[u8], is: bool) {
    assert!(rt; is, "at {line:?}");
}

/// The lines as a text, in which LF ends each.
fn text_of(alloc: Global, printed: &Printed) -> Result<Vec<u8>, Fail> {
    let mut text = Vec::new(alloc);
    for line in printed.as_slice() {
        text.extend_from_slice(line.as_slice())?;
        text.push(b'\n')?;
    }
    Ok(text)
}

/// Plays the line, and asserts that it is an event, that it names what is there, and what it prints.
fn prints(
    rt: &impl Abort,
    alloc: Global,
    world: &mut World,
    line: &[u8],
    wanted: &[u8],
) -> Result<(), Fail> {
    let event = read_event(line)?;
    let fits = world.fits(&event);
    holds(rt, line, fits);
    if fits {
        let printed = world.play(alloc, &event)?;
        let text = text_of(alloc, &printed)?;
        same(rt, line, &text, wanted);
    }
    Ok(())
}

/// Asserts that the line is an event that names who isn't there.
fn fits_not(rt: &impl Abort, world: &World, line: &[u8]) -> Result<(), Fail> {
    let event = read_event(line)?;
    holds(rt, line, !world.fits(&event));
    Ok(())
}

#[test]
fn events_print_their_lines(rt: HostRuntime) -> Result<(), Fail> {
    let mut world = World::new(rt.alloc());
    fits_not(&rt, &world, b"ask ann HELP")?;
    for (line, wanted) in &DAY {
        prints(&rt, rt.alloc(), &mut world, line, wanted)?;
    }
    fits_not(&rt, &world, b"ask eve LIST-MAILBOXES")?;
    fits_not(&rt, &world, b"ask anna HELP")
}

#[test]
fn other_lines_are_no_event(rt: HostRuntime) {
    for line in &BAD {
        holds(&rt, line, read_event(line).is_err());
    }
}

/// Whether a line of this length is an event: a user's request of spaces behind `HELP`.
fn asks_in(alloc: Global, length: usize) -> Result<bool, Fail> {
    let mut line = Vec::from_slice(alloc, b"ask ann HELP".as_slice())?;
    for _ in line.len()..length {
        line.push(b' ')?;
    }
    Ok(read_event(&line).is_ok())
}

#[test]
fn lines_have_at_most_1000_bytes(rt: HostRuntime) -> Result<(), Fail> {
    holds(&rt, b"1000", asks_in(rt.alloc(), 1000)?);
    holds(&rt, b"1001", !asks_in(rt.alloc(), 1001)?);
    Ok(())
}

#[test]
fn worlds_have_at_most_32_users(rt: HostRuntime) -> Result<(), Fail> {
    let mut world = World::new(rt.alloc());
    for number in 1u32..34 {
        let line = format!(in rt.alloc(); "user u{number} sesame")?;
        let head = if number < 33 {
            "200 Ok"
        } else {
            "418 Limit reached users"
        };
        let wanted = format!(in rt.alloc(); "user u{number}: {head}\n")?;
        prints(
            &rt,
            rt.alloc(),
            &mut world,
            line.as_bytes(),
            wanted.as_bytes(),
        )?;
    }
    fits_not(&rt, &world, b"ask u33 HELP")
}
