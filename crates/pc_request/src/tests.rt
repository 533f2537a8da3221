//! Tests of what no clause says. A test is a list of calls of small functions that assert: an
//! assertion is proved where it stands, a call of one costs little.

use crate::{Operation, Request, RequestFault};
use pc_base::MemorySink;
use std::alloc::Global;
use std::process::Abort;
use std::test::Fail;

/// These bytes were wanted.
fn same(rt: &impl Abort, found: &[u8], wanted: &[u8]) {
    assert_eq!(rt; found, wanted);
}

/// This was wanted.
fn holds(rt: &impl Abort, what: &str, is: bool) {
    assert!(rt; is, "{what}");
}

/// The line is no request, by this fault, or is one where it's `None`.
fn faulty(rt: &impl Abort, line: &[u8], fault: Option<RequestFault>) {
    let found = Request::read(line).err();
    assert!(rt; found == fault, "{line:?}");
}

/// A line of each operation as it is written, and one with other letters, spaces and zeros that is the same request.
static LINES: [(&[u8], &[u8]); 32] = [
    (b"SEND-VERSION 1", b"Send-Version 0001"),
    (b"HELP", b"  help "),
    (b"LOGIN ann sesame ws1 0 1", b"login  ann sesame ws1 00 01"),
    (b"LOGOUT", b"LogOut"),
    (b"SET-PASSWORD sesame ~!+", b"set-password   sesame ~!+"),
    (b"LIST-CLIENTS", b"list-clients"),
    (b"CREATE-CLIENT ws1", b"create-client ws1 "),
    (b"DELETE-CLIENT ws1", b"delete-client ws1"),
    (b"RESET-CLIENT ws1", b" reset-client ws1"),
    (b"LIST-MAILBOXES", b"list-mailboxes"),
    (b"CREATE-MAILBOX work", b"create-mailbox  work"),
    (b"DELETE-MAILBOX work", b"delete-mailbox work"),
    (b"RESET-MAILBOX work", b"reset-mailbox work"),
    (b"SELECT-MAILBOX work", b"select-mailbox work"),
    (b"SELECT-MAILBOX +news", b"select-mailbox +news"),
    (b"EXPUNGE-MAILBOX", b"expunge-mailbox"),
    (b"LIST-ADDRESSES work", b"list-addresses work"),
    (b"CREATE-ADDRESS work a.b", b"create-address work   a.b"),
    (b"DELETE-ADDRESS a.b", b"delete-address a.b"),
    (b"LIST-SUBSCRIPTIONS", b"list-subscriptions"),
    (
        b"LIST-AVAILABLE-SUBSCRIPTIONS",
        b"list-available-subscriptions",
    ),
    (b"CREATE-SUBSCRIPTION news", b"create-subscription news"),
    (b"DELETE-SUBSCRIPTION news", b"delete-subscription news"),
    (b"RESET-SUBSCRIPTION news 0", b"reset-subscription news 000"),
    (
        b"FETCH-DESCRIPTORS 1 4294967295",
        b"fetch-descriptors 01 4294967295",
    ),
    (
        b"FETCH-CHANGED-DESCRIPTORS 256",
        b"fetch-changed-descriptors 0256",
    ),
    (b"RESET-DESCRIPTORS 2 1", b"reset-descriptors 2 1"),
    (b"FETCH-HEADERS 7", b"fetch-headers 7"),
    (b"FETCH-MESSAGE 7", b"fetch-message 7"),
    (b"COPY-MESSAGE 7 work", b"copy-message 7 work"),
    (b"SET-MESSAGE-FLAG 7 15 1", b"set-message-flag 7 0015 1"),
    (b"SEND-MESSAGE", b"send-message"),
];

/// The line is read, and its request is written as this line and CR LF.
fn is_written(rt: &impl Abort, alloc: Global, line: &[u8], written: &[u8]) -> Result<(), Fail> {
    let request = Request::read(line)?;
    same(rt, request.line().bytes(), written);
    let mut sink = MemorySink::new(alloc).in_pieces(3);
    request.write(&mut sink)?;
    same(
        rt,
        sink.bytes().strip_suffix(b"\r\n").unwrap_or(b""),
        written,
    );
    Ok(())
}

#[test]
fn each_is_read_and_written(rt: HostRuntime) -> Result<(), Fail> {
    for (written, other) in &LINES {
        is_written(&rt, rt.alloc(), written, written)?;
        is_written(&rt, rt.alloc(), other, written)?;
    }
    Ok(())
}

/// The line with one argument more.
fn longer(alloc: Global, line: &[u8]) -> Result<Vec<u8>, Fail> {
    let mut longer = Vec::from_slice(alloc, line)?;
    longer.extend_from_slice(b" 1")?;
    Ok(longer)
}

#[test]
fn numbers_of_arguments(rt: HostRuntime) -> Result<(), Fail> {
    let wrong = Some(RequestFault::Arguments);
    for (written, _) in &LINES {
        faulty(&rt, &longer(rt.alloc(), written)?, wrong);
        if let Some(space) = written.iter().rposition(|byte| *byte == b' ') {
            faulty(&rt, written.get(..space).unwrap_or(b""), wrong);
        }
    }
    Ok(())
}

#[test]
fn faults_of_operations(rt: HostRuntime) {
    let unknown = Some(RequestFault::Unknown);
    faulty(&rt, b"", unknown);
    faulty(&rt, b"   ", unknown);
    faulty(&rt, b"HELPS", unknown);
    faulty(&rt, b"HEL", unknown);
    faulty(&rt, b"HELP\tme", unknown);
    faulty(&rt, b"+HELP", unknown);
    faulty(&rt, b"1 HELP", unknown);
    faulty(&rt, b"SELECT-BOARD news", unknown);
}

#[test]
fn faults_of_numbers(rt: HostRuntime) {
    let wrong = Some(RequestFault::Arguments);
    faulty(&rt, b"SEND-VERSION 4294967295", None);
    faulty(&rt, b"SEND-VERSION 4294967296", wrong);
    faulty(&rt, b"SEND-VERSION 0000000001", None);
    faulty(&rt, b"SEND-VERSION 00000000001", wrong);
    faulty(&rt, b"SEND-VERSION -1", wrong);
    faulty(&rt, b"SEND-VERSION +1", wrong);
    faulty(&rt, b"FETCH-CHANGED-DESCRIPTORS 0", wrong);
    faulty(&rt, b"FETCH-CHANGED-DESCRIPTORS 1", None);
    faulty(&rt, b"FETCH-CHANGED-DESCRIPTORS 256", None);
    faulty(&rt, b"FETCH-CHANGED-DESCRIPTORS 257", wrong);
    faulty(&rt, b"SET-MESSAGE-FLAG 1 15 2", wrong);
    faulty(&rt, b"SET-MESSAGE-FLAG 1 15 0", None);
    faulty(&rt, b"SET-MESSAGE-FLAG 1 16 0", Some(RequestFault::BadFlag));
    faulty(&rt, b"SET-MESSAGE-FLAG 1 x 0", wrong);
    faulty(&rt, b"SET-MESSAGE-FLAG 1 4294967296 0", wrong);
}

#[test]
fn faults_of_names_and_passwords(rt: HostRuntime) {
    let bad = Some(RequestFault::BadName);
    let wrong = Some(RequestFault::Arguments);
    faulty(
        &rt,
        b"CREATE-MAILBOX a23456789.123456789_123456789-12",
        None,
    );
    faulty(
        &rt,
        b"CREATE-MAILBOX a23456789.123456789_123456789-123",
        bad,
    );
    faulty(&rt, b"CREATE-MAILBOX Work", bad);
    faulty(&rt, b"CREATE-MAILBOX +work", bad);
    faulty(&rt, b"SELECT-MAILBOX +", bad);
    faulty(&rt, b"SELECT-MAILBOX ++news", bad);
    faulty(&rt, b"SELECT-MAILBOX 1st", bad);
    faulty(
        &rt,
        b"SET-PASSWORD s 0123456789ABCDEF0123456789abcdef0123456789ABCDEF0123456789abcdef",
        None,
    );
    faulty(
        &rt,
        b"SET-PASSWORD s 0123456789ABCDEF0123456789abcdef0123456789ABCDEF0123456789abcdef0",
        wrong,
    );
    faulty(&rt, b"SET-PASSWORD s a\x7f", wrong);
}

#[test]
fn first_fault_from_the_left(rt: HostRuntime) {
    let bad = Some(RequestFault::BadName);
    let wrong = Some(RequestFault::Arguments);
    let flag = Some(RequestFault::BadFlag);
    faulty(&rt, b"LOGIN Ann \x7f ws1 2 2", bad);
    faulty(&rt, b"LOGIN ann \x7f WS1 2 2", wrong);
    faulty(&rt, b"COPY-MESSAGE x Work", wrong);
    faulty(&rt, b"COPY-MESSAGE 1 Work", bad);
    faulty(&rt, b"RESET-SUBSCRIPTION News x", bad);
    faulty(&rt, b"SET-MESSAGE-FLAG x 16 2", wrong);
    faulty(&rt, b"SET-MESSAGE-FLAG 1 16 2", flag);
    faulty(&rt, b"SET-MESSAGE-FLAG x 16", wrong);
}

#[test]
fn a_failed_write_leaves_a_front(rt: HostRuntime) {
    let mut sink = MemorySink::new(rt.alloc()).in_pieces(4).failing_at(3);
    holds(
        &rt,
        "it fails",
        Request::ListMailboxes.write(&mut sink).is_err(),
    );
    same(&rt, sink.bytes(), b"LIST-MAI");
}

/// The operation is found by its word.
fn is_named(rt: &impl Abort, operation: Operation) {
    let found = Operation::named(operation.word());
    assert_eq!(rt; found, Some(operation));
}

#[test]
fn operations_in_order(rt: HostRuntime) -> Result<(), Fail> {
    let mut words = Vec::new(rt.alloc());
    for operation in Operation::all() {
        words.push(b' ')?;
        words.extend_from_slice(operation.word())?;
        is_named(&rt, *operation);
    }
    let wanted =
        b" SEND-VERSION HELP LOGIN LOGOUT SET-PASSWORD LIST-CLIENTS CREATE-CLIENT DELETE-CLIENT \
        RESET-CLIENT LIST-MAILBOXES CREATE-MAILBOX DELETE-MAILBOX RESET-MAILBOX SELECT-MAILBOX EXPUNGE-MAILBOX \
        LIST-ADDRESSES CREATE-ADDRESS DELETE-ADDRESS LIST-SUBSCRIPTIONS LIST-AVAILABLE-SUBSCRIPTIONS \
        CREATE-SUBSCRIPTION DELETE-SUBSCRIPTION RESET-SUBSCRIPTION FETCH-DESCRIPTORS FETCH-CHANGED-DESCRIPTORS \
        RESET-DESCRIPTORS FETCH-HEADERS FETCH-MESSAGE COPY-MESSAGE SET-MESSAGE-FLAG SEND-MESSAGE";
    same(&rt, &words, wanted);
    Ok(())
}
