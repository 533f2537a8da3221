//! Small caches, step by step.

use super::player::plays;
use std::test::Fail;

#[test]
fn flags_that_are_queued(rt: HostRuntime) -> Result<(), Fail> {
    plays(&rt, rt.alloc(), &QUEUED)
}

#[test]
fn copies_that_are_begun_anew(rt: HostRuntime) -> Result<(), Fail> {
    plays(&rt, rt.alloc(), &BEGUN)
}

#[test]
fn mailboxes_that_are_left_out(rt: HostRuntime) -> Result<(), Fail> {
    plays(&rt, rt.alloc(), &LEFT_OUT)
}

#[test]
fn entries_that_are_not_allowed(rt: HostRuntime) -> Result<(), Fail> {
    plays(&rt, rt.alloc(), &REFUSED)
}

/// The last change of a flag holds, each is answered alone, and no number comes again.
const QUEUED: [(&str, &str); 20] = [
    ("Begin 5", "ok"),
    ("Synced", "ok"),
    ("Took inbox 7 1 3 0", "ok"),
    ("Queue inbox 7 2 1", "ok"),
    ("View inbox", "3:0 7:5 "),
    ("Queue inbox 7 2 0", "ok"),
    ("Queue inbox 3 0 1", "ok"),
    ("View inbox", "3:1 7:1 "),
    ("Waiting", "1:7:2:true 2:7:2:false 3:3:0:true "),
    ("Answered 2", "ok"),
    ("View inbox", "3:1 7:5 "),
    ("Answered 3", "ok"),
    ("Queue inbox 3 15 1", "ok"),
    ("Waiting", "1:7:2:true 4:3:15:true "),
    ("View inbox", "3:32768 7:5 "),
    ("Took inbox 7 gone", "ok"),
    ("View inbox", "3:32768 "),
    ("Took inbox 9 0 7 0", "ok"),
    ("View inbox", "3:32768 7:4 9:0 "),
    ("Has inbox 8", "false"),
];

/// After `Begin` no copy is left, and the queue is.
const BEGUN: [(&str, &str); 16] = [
    ("Birth", "0"),
    ("Resetting", "true"),
    ("Begin 5", "ok"),
    ("Synced", "ok"),
    ("Took inbox 7 1", "ok"),
    ("Queue inbox 7 2 1", "ok"),
    ("Begin 9", "ok"),
    ("Birth", "9"),
    ("Resetting", "true"),
    ("Mailboxes", ""),
    ("View inbox", ""),
    ("Waiting", "1:7:2:true "),
    ("Took inbox 7 0", "no"),
    ("Synced", "ok"),
    ("Took inbox 7 0", "ok"),
    ("View inbox", "7:4 "),
];

/// What is left out has no copies, and what is taken again comes last, without what it had.
const LEFT_OUT: [(&str, &str); 15] = [
    ("Synced", "ok"),
    ("Took inbox 3 0 7 1", "ok"),
    ("Took work 1 0", "ok"),
    ("Took empty", "ok"),
    ("Mailboxes", "inbox work empty "),
    ("Kept work other empty", "ok"),
    ("Mailboxes", "work empty "),
    ("Has inbox 7", "false"),
    ("Has work 1", "true"),
    ("Took inbox 7 1", "ok"),
    ("Mailboxes", "work empty inbox "),
    ("View inbox", "7:1 "),
    ("View work", "1:0 "),
    ("Kept", "ok"),
    ("Mailboxes", ""),
];

/// What isn't allowed: before the lists begin anew; a uid or a name twice; a change of no message,
/// or of no flag; and an answer to no change.
const REFUSED: [(&str, &str); 24] = [
    ("Took inbox", "no"),
    ("Kept", "no"),
    ("Queue inbox 7 2 1", "no"),
    ("Answered 1", "no"),
    ("Synced", "ok"),
    ("Synced", "no"),
    ("Took inbox 3 0 7 1", "ok"),
    ("Took inbox 3 0 3 0", "no"),
    ("Took inbox 3 0 4 gone 3 gone", "no"),
    ("Took inbox 9 0 4 gone 3 gone", "ok"),
    ("Kept work inbox work", "no"),
    ("Queue inbox 4 2 1", "no"),
    ("Queue work 7 2 1", "no"),
    ("Queue inbox 7 16 1", "no"),
    ("Queue inbox 7 15 1", "ok"),
    ("Answered 0", "no"),
    ("Answered 2", "no"),
    ("Answered 1", "ok"),
    ("Answered 1", "no"),
    ("View inbox", "7:1 9:0 "),
    ("Took inbox 9 gone 7 gone 8 2", "ok"),
    ("View inbox", "8:2 "),
    ("Kept inbox inbox work", "no"),
    ("Kept inbox work", "ok"),
];
