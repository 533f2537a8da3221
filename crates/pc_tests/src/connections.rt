//! Connections to a repository in which ann is enrolled. What is wanted is worked out by hand.

use super::houses::{ann, house, talk};
use pc_base::{Link, MemoryLink};
use pc_session::{Cause, converse};
use std::test::Fail;

/// The lines of a session in which a client logs in and finds nothing changed.
const NOTHING_NEW: &[u8] = b"LOGIN ann sesame ws1 1 0\r\n\
SELECT-MAILBOX inbox\r\n\
FETCH-CHANGED-DESCRIPTORS 256\r\n\
LOGOUT\r\n\
LIST-MAILBOXES\r\n";

/// What it is answered. What follows LOGOUT isn't.
const NOTHING_FOUND: &[u8] = b"220 pcmail DMSP ready\r\n\
205 Birth 3\r\n\
200 Ok\r\n\
201 List follows\r\n\
.\r\n\
221 Closing\r\n";

#[test]
fn nothing_is_new_in_any_cutting(rt: HostRuntime) -> Result<(), Fail> {
    for piece in [1, 2, 3, 7, 64, 4_096] {
        let mut repository = house(rt.alloc(), 0)?;
        let mut link = MemoryLink::new(rt.alloc(), NOTHING_NEW).in_pieces(piece);
        let ended = converse(rt.alloc(), &mut repository, &mut link);
        assert_eq!(rt; ended.cause, Cause::Left, "{piece}");
        assert_eq!(rt; link.bytes(), NOTHING_FOUND, "{piece}");
        assert_eq!(rt; ended.receipts.as_slice().len(), 1);
    }
    Ok(())
}

#[test]
fn the_end_comes_behind_a_login(rt: HostRuntime) -> Result<(), Fail> {
    let mut repository = house(rt.alloc(), 0)?;
    let lines = b"login ann sesame ws1 1 0\n";
    let mut link = MemoryLink::new(rt.alloc(), lines).in_pieces(1);
    let ended = converse(rt.alloc(), &mut repository, &mut link);
    assert_eq!(rt; ended.cause, Cause::End);
    assert_eq!(rt;
        link.bytes(),
        b"220 pcmail DMSP ready\r\n205 Birth 3\r\n".as_slice()
    );
    let receipts = ended.receipts.as_slice();
    assert_eq!(rt; receipts.len(), 1);
    let receipt = receipts.first().ok_or("a receipt")?;
    assert_eq!(rt; receipt.number, 3);
    // tag 6, and the name with its length
    assert_eq!(rt; receipt.entry.as_slice(), b"\x06\x03ws1".as_slice());
    Ok(())
}

#[test]
fn a_line_that_the_end_cuts_off_is_dropped(rt: HostRuntime) -> Result<(), Fail> {
    let rows = [
        (b"".as_slice(), b"220 pcmail DMSP ready\r\n".as_slice()),
        (b"LOGOUT", b"220 pcmail DMSP ready\r\n"),
        (b"LOGOUT\r", b"220 pcmail DMSP ready\r\n"),
        (
            b"SEND-VERSION 1\nLOGOUT",
            b"220 pcmail DMSP ready\r\n200 Ok\r\n",
        ),
        (
            b"\n\r\n",
            b"220 pcmail DMSP ready\r\n400 Unknown operation\r\n400 Unknown operation\r\n",
        ),
    ];
    for (lines, wanted) in rows {
        let mut repository = house(rt.alloc(), 0)?;
        let mut link = MemoryLink::new(rt.alloc(), lines);
        let ended = converse(rt.alloc(), &mut repository, &mut link);
        assert_eq!(rt; ended.cause, Cause::End);
        assert_eq!(rt; link.bytes(), wanted);
    }
    Ok(())
}

#[test]
fn a_link_that_fails(rt: HostRuntime) -> Result<(), Fail> {
    // the greeting's text and its end are written, and then the first read fails
    let rows = [
        (1, b"".as_slice()),
        (2, b"220 pcmail DMSP ready"),
        (3, b"220 pcmail DMSP ready\r\n"),
    ];
    for (call, wanted) in rows {
        let mut repository = house(rt.alloc(), 0)?;
        let mut link = MemoryLink::new(rt.alloc(), NOTHING_NEW).failing_at(call);
        let ended = converse(rt.alloc(), &mut repository, &mut link);
        assert_eq!(rt; ended.cause, Cause::LinkFault, "{call}");
        assert_eq!(rt; link.bytes(), wanted, "{call}");
        assert!(rt; ended.receipts.as_slice().is_empty());
    }
    Ok(())
}

#[test]
fn a_session_ends_with_its_connection(rt: HostRuntime) -> Result<(), Fail> {
    let mut repository = house(rt.alloc(), 0)?;
    let mut link = MemoryLink::new(rt.alloc(), NOTHING_NEW).failing_at(9);
    let ended = converse(rt.alloc(), &mut repository, &mut link);
    assert_eq!(rt; ended.cause, Cause::LinkFault);
    let rows = [
        (
            b"LIST-CLIENTS".as_slice(),
            b"201 List follows\r\nws1 3 away\r\n.\r\n".as_slice(),
        ),
        (b"DELETE-CLIENT ws1", b"200 Ok\r\n"),
    ];
    talk(rt.alloc(), &mut repository, Some(ann()?), &rows)
}
