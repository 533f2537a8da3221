//! Tests of what no clause says: the texts of what a session answers without a desk.

use crate::{Reach, Session};
use pc_base::Name;
use pc_reply::Reply;
use pc_request::Request;
use std::alloc::Global;
use std::process::Abort;
use std::test::Fail;

fn holds(rt: &impl Abort, what: &str, is: bool) {
    assert!(rt; is, "{what}");
}

fn same(rt: &impl Abort, what: &str, found: &[u8], wanted: &str) {
    assert_eq!(rt; found, wanted.as_bytes(), "{what}");
}

/// What a session answers to the line of a request that reaches nobody.
fn told(alloc: Global, session: &mut Session, line: &str) -> Result<Reply, Fail> {
    let request = Request::read(line.as_bytes()).ok().ok_or("no request")?;
    match session.reach(&request) {
        Reach::Nobody => Ok(session.alone(alloc, &request)),
        Reach::Account(_) => Err(Fail::from("it reaches an account")),
    }
}

/// The user whose account the line of a request reaches.
fn reached(session: &Session, line: &str) -> Result<Name, Fail> {
    let request = Request::read(line.as_bytes()).ok().ok_or("no request")?;
    match session.reach(&request) {
        Reach::Nobody => Err(Fail::from("it reaches nobody")),
        Reach::Account(user) => Ok(user),
    }
}

fn ann() -> Result<Name, Fail> {
    Ok(Name::read(b"ann").ok_or("no name")?)
}

/// Looks whether a line that reaches nobody is answered by this head and no lines.
fn answers(
    rt: &impl Abort,
    alloc: Global,
    session: &mut Session,
    line: &str,
    head: &str,
) -> Result<(), Fail> {
    let reply = told(alloc, session, line)?;
    same(rt, line, reply.head.text().bytes(), head);
    holds(rt, line, reply.lines.as_slice().is_empty());
    Ok(())
}

/// Looks whether each row's line is answered by the row's head and no lines.
fn answers_each(
    rt: &impl Abort,
    alloc: Global,
    session: &mut Session,
    rows: &[(&str, &str)],
) -> Result<(), Fail> {
    for (line, head) in rows {
        answers(rt, alloc, session, line, head)?;
    }
    Ok(())
}

#[test]
fn nobody_has_logged_in(rt: HostRuntime) -> Result<(), Fail> {
    let mut session = Session::new(rt.alloc());
    answers_each(&rt, rt.alloc(), &mut session, &NOBODY)?;
    holds(&rt, "seven answers", session.answered() == 7);
    holds(&rt, "no user", session.user().is_none());
    Ok(())
}

static NOBODY: [(&str, &str); 7] = [
    ("SEND-VERSION 1", "200 Ok"),
    ("SEND-VERSION 7", "429 Version unknown"),
    ("LIST-MAILBOXES", "403 Not logged in"),
    ("FETCH-MESSAGE 1", "403 Not logged in"),
    ("LIST-ADDRESSES work", "400 Unknown operation"),
    ("SEND-MESSAGE", "400 Unknown operation"),
    ("LOGOUT", "221 Closing"),
];

#[test]
fn at_the_console(rt: HostRuntime) -> Result<(), Fail> {
    let mut session = Session::console(rt.alloc(), ann()?);
    answers_each(&rt, rt.alloc(), &mut session, &CONSOLE)?;
    last_is_heard(&rt, &session)?;
    holds(&rt, "no receipts", session.receipts().as_slice().is_empty());
    Ok(())
}

static CONSOLE: [(&str, &str); 4] = [
    ("LOGIN ann sesame ws1 0 0", "404 Already logged in"),
    ("FETCH-MESSAGE 1", "408 No mailbox selected"),
    ("EXPUNGE-MAILBOX", "408 No mailbox selected"),
    ("LIST-SUBSCRIPTIONS", "400 Unknown operation"),
];

/// Looks whether the last answer at the console is heard.
fn last_is_heard(rt: &impl Abort, session: &Session) -> Result<(), Fail> {
    let heard = session.heard().ok_or("no reply")?;
    same(
        rt,
        "heard",
        heard.head.text().bytes(),
        "400 Unknown operation",
    );
    Ok(())
}

#[test]
fn help_lists_all_operations(rt: HostRuntime) -> Result<(), Fail> {
    let mut session = Session::new(rt.alloc());
    let reply = told(rt.alloc(), &mut session, "HELP")?;
    lists_operations(&rt, &reply)
}

fn lists_operations(rt: &impl Abort, reply: &Reply) -> Result<(), Fail> {
    same(
        rt,
        "its head",
        reply.head.text().bytes(),
        "201 List follows",
    );
    let lines = reply.lines.as_slice();
    holds(rt, "31 lines", lines.len() == 31);
    let first = lines.first().ok_or("no line")?;
    same(rt, "the first", first.bytes(), "SEND-VERSION");
    let last = lines.last().ok_or("no line")?;
    same(rt, "the last", last.bytes(), "SEND-MESSAGE");
    Ok(())
}

#[test]
fn whom_requests_reach(rt: HostRuntime) -> Result<(), Fail> {
    let session = Session::console(rt.alloc(), ann()?);
    reaches_ann(&rt, &session, "LIST-MAILBOXES")
}

#[test]
fn a_login_without_a_desk(rt: HostRuntime) -> Result<(), Fail> {
    let mut session = Session::new(rt.alloc());
    has_no_desk(&rt, rt.alloc(), &mut session)
}

/// Looks whether the line of a request reaches ann's account.
fn reaches_ann(rt: &impl Abort, session: &Session, line: &str) -> Result<(), Fail> {
    let user = reached(session, line)?;
    same(rt, line, user.bytes(), "ann");
    Ok(())
}

fn has_no_desk(rt: &impl Abort, alloc: Global, session: &mut Session) -> Result<(), Fail> {
    reaches_ann(rt, session, "LOGIN ann sesame ws1 1 0")?;
    let reply = session.no_desk(alloc);
    same(
        rt,
        "no desk",
        reply.head.text().bytes(),
        "405 Bad user or password",
    );
    holds(rt, "no answer", session.answered() == 0);
    Ok(())
}
