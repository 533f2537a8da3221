//! Sessions of ann, at a repository in which she is enrolled. What is wanted is worked out by hand.

use super::houses::{ann, house, say, talk};
use pc_session::Session;
use std::test::Fail;

#[test]
fn mailboxes_at_the_console(rt: HostRuntime) -> Result<(), Fail> {
    let mut repository = house(rt.alloc(), 0)?;
    let rows = [
        (b"CREATE-MAILBOX work".as_slice(), b"200 Ok\r\n".as_slice()),
        (b"create-mailbox  work ", b"410 Mailbox exists\r\n"),
        (b"CREATE-MAILBOX Work", b"411 Bad name\r\n"),
        (
            b"LIST-MAILBOXES",
            b"201 List follows\r\ninbox 0 0\r\nwork 0 0\r\n.\r\n",
        ),
        (b"DELETE-MAILBOX inbox", b"422 Read only\r\n"),
        (b"DELETE-MAILBOX work", b"200 Ok\r\n"),
        (b"DELETE-MAILBOX work", b"409 No such mailbox\r\n"),
        (b"FETCH-MESSAGE 1", b"408 No mailbox selected\r\n"),
        (b"LOGIN ann sesame ws1 0 0", b"404 Already logged in\r\n"),
        (b"SELECT-MAILBOX inbox", b"200 Ok\r\n"),
        (b"FETCH-MESSAGE 1", b"412 No such message\r\n"),
        (b"FETCH-CHANGED-DESCRIPTORS 1", b"406 No such client\r\n"),
        (b"RESET-MAILBOX inbox", b"406 No such client\r\n"),
        (b"SET-PASSWORD sesame open", b"200 Ok\r\n"),
        (b"SET-PASSWORD sesame open", b"405 Bad user or password\r\n"),
        (b"SET-PASSWORD open open", b"200 Ok\r\n"),
    ];
    talk(rt.alloc(), &mut repository, Some(ann()?), &rows)
}

#[test]
fn before_a_login(rt: HostRuntime) -> Result<(), Fail> {
    let mut repository = house(rt.alloc(), 0)?;
    let rows = [
        (
            b"LIST-CLIENTS".as_slice(),
            b"403 Not logged in\r\n".as_slice(),
        ),
        (b"LOGIN ann sesame ws9 0 0", b"406 No such client\r\n"),
        (b"LOGIN ann wrong ws9 1 0", b"405 Bad user or password\r\n"),
        (b"LOGIN bob sesame ws9 1 0", b"405 Bad user or password\r\n"),
        (b"SEND-VERSION 7", b"429 Version unknown\r\n"),
        (b"PRINT", b"400 Unknown operation\r\n"),
        (b"SET-MESSAGE-FLAG 1 16 1", b"413 No such flag\r\n"),
        (b"FETCH-CHANGED-DESCRIPTORS 0", b"401 Wrong arguments\r\n"),
        (b"LOGOUT", b"221 Closing\r\n"),
    ];
    talk(rt.alloc(), &mut repository, None, &rows)
}

#[test]
fn the_longest_line(rt: HostRuntime) -> Result<(), Fail> {
    let mut repository = house(rt.alloc(), 0)?;
    let mut session = Session::new(rt.alloc());
    let mut line = Vec::new(rt.alloc());
    line.extend_from_slice(b"SEND-VERSION 1")?;
    for _ in line.len()..512 {
        line.push(b' ')?;
    }
    say(
        rt.alloc(),
        &mut repository,
        &mut session,
        line.as_slice(),
        b"200 Ok\r\n",
    )?;
    line.push(b' ')?;
    say(
        rt.alloc(),
        &mut repository,
        &mut session,
        line.as_slice(),
        b"402 Line too long\r\n",
    )
}

#[test]
fn a_client_is_taken_over(rt: HostRuntime) -> Result<(), Fail> {
    let mut repository = house(rt.alloc(), 0)?;
    let mut older = Session::new(rt.alloc());
    let mut newer = Session::new(rt.alloc());
    let rows = [
        (
            false,
            b"LOGIN ann sesame ws1 1 0".as_slice(),
            b"205 Birth 3\r\n".as_slice(),
        ),
        (false, b"CREATE-CLIENT ws1", b"423 Client exists\r\n"),
        (false, b"DELETE-CLIENT ws1", b"428 Client has a session\r\n"),
        (true, b"LOGIN ann sesame ws1 0 1", b"205 Birth 3\r\n"),
        (false, b"LIST-MAILBOXES", b"407 Superseded by session 2\r\n"),
        (
            false,
            b"FETCH-MESSAGE 1",
            b"407 Superseded by session 2\r\n",
        ),
        (false, b"SEND-VERSION 1", b"200 Ok\r\n"),
        (true, b"FETCH-MESSAGE 1", b"408 No mailbox selected\r\n"),
        (
            true,
            b"LIST-CLIENTS",
            b"201 List follows\r\nws1 3 batch\r\n.\r\n",
        ),
        (true, b"CREATE-CLIENT ws2", b"200 Ok\r\n"),
        (true, b"DELETE-CLIENT ws2", b"200 Ok\r\n"),
        (true, b"LOGOUT", b"221 Closing\r\n"),
    ];
    for (is_newer, line, wanted) in rows {
        let session = if is_newer { &mut newer } else { &mut older };
        say(rt.alloc(), &mut repository, session, line, wanted)?;
    }
    Ok(())
}

#[test]
fn a_disk_that_fails_in_a_commit(rt: HostRuntime) -> Result<(), Fail> {
    // at its third call the entry is gone; at its fourth it stands, and comes back when the store is opened again
    let gone = [
        (
            b"CREATE-MAILBOX work".as_slice(),
            b"501 Device failed\r\n".as_slice(),
        ),
        (b"LIST-MAILBOXES", b"201 List follows\r\ninbox 0 0\r\n.\r\n"),
        (b"CREATE-MAILBOX work", b"200 Ok\r\n"),
    ];
    let mut repository = house(rt.alloc(), 3)?;
    talk(rt.alloc(), &mut repository, Some(ann()?), &gone)?;
    let back = [
        (
            b"CREATE-MAILBOX work".as_slice(),
            b"501 Device failed\r\n".as_slice(),
        ),
        (
            b"LIST-MAILBOXES",
            b"201 List follows\r\ninbox 0 0\r\nwork 0 0\r\n.\r\n",
        ),
        (b"CREATE-MAILBOX work", b"410 Mailbox exists\r\n"),
    ];
    let mut repository = house(rt.alloc(), 4)?;
    talk(rt.alloc(), &mut repository, Some(ann()?), &back)
}
