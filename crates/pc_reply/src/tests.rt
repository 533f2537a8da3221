//! Tests of what no clause says. A test is a list of calls of small functions that assert: an
//! assertion is proved where it stands, a call of one costs little.

use crate::{
    Head, ItemFault, Mode, Reply, ReplyFeed, ReplyNext, client_line, counted_line, name_line,
    push_change, read_changes, read_mailboxes,
};
use pc_base::{LimitWord, Line, Lines, MemorySink, Name, Names, Recipient, Refusal};
use pc_message::{Change, Descriptor};
use std::alloc::Global;
use std::process::Abort;
use std::test::Fail;

/// These bytes were wanted.
fn same(rt: &impl Abort, found: &[u8], wanted: &[u8]) {
    assert_eq!(rt; found, wanted);
}

/// This was wanted.
fn holds(rt: &impl Abort, what: &str, is: bool) {
    assert!(rt; is, "{what}");
}

/// The lines of the texts.
fn lines_of(alloc: Global, texts: &[&[u8]]) -> Result<Lines, Fail> {
    let mut lines = Lines::new(alloc);
    for text in texts {
        lines.push(Line::copy_of(alloc, text)?)?;
    }
    Ok(lines)
}

/// Whether the lines are these texts.
fn are_lines(lines: &Lines, texts: &[&[u8]]) -> bool {
    let lines = lines.as_slice();
    lines.len() == texts.len()
        && lines
            .iter()
            .zip(texts.iter())
            .all(|(line, text)| line.bytes() == *text)
}

fn lines_are(rt: &impl Abort, lines: &Lines, texts: &[&[u8]]) {
    assert!(rt; are_lines(lines, texts), "{texts:?}");
}

/// What a feed tells after the bytes: the first answer other than `More`, or `More` at their end.
fn told(feed: &mut ReplyFeed, bytes: &[u8]) -> Result<(ReplyNext, usize), Fail> {
    let mut taken = 0;
    for _ in 0..bytes.len() {
        let rest = bytes.get(taken..).ok_or("no bytes are left")?;
        taken = feed.feed(rest).saturating_add(taken);
        match feed.next()? {
            ReplyNext::More => {}
            other => return Ok((other, taken)),
        }
    }
    Ok((ReplyNext::More, taken))
}

/// The reply that a feed tells after the bytes, which come in two pieces, with what is taken of them.
fn read_cut(alloc: Global, bytes: &[u8], cut: usize) -> Result<(Reply, usize), Fail> {
    let (Some(front), Some(back)) = (bytes.get(..cut), bytes.get(cut..)) else {
        return Err(Fail::from("no such cut"));
    };
    let mut feed = ReplyFeed::new(alloc);
    let (next, taken) = told(&mut feed, front)?;
    if let ReplyNext::Whole(reply) = next {
        return Ok((reply, taken));
    }
    let (next, more) = told(&mut feed, back)?;
    match next {
        ReplyNext::Whole(reply) => Ok((reply, taken.saturating_add(more))),
        _ => Err(Fail::from("no reply")),
    }
}

/// The place of the line that a feed refuses.
fn bad_place(alloc: Global, bytes: &[u8]) -> Result<Option<u64>, Fail> {
    let mut feed = ReplyFeed::new(alloc);
    let (next, _) = told(&mut feed, bytes)?;
    let again = feed.next()?;
    match (next, again) {
        (ReplyNext::Bad { place }, ReplyNext::Bad { place: other }) if place == other => Ok(Some(
            place,
        )),
        _ => Ok(None),
    }
}

/// A reply that is read has this head and no lines, and takes all bytes.
fn is_head(
    rt: &impl Abort,
    alloc: Global,
    written: &[u8],
    cut: usize,
    text: &[u8],
) -> Result<(), Fail> {
    let (reply, taken) = read_cut(alloc, written, cut)?;
    same(rt, reply.head.text().bytes(), text);
    holds(rt, "all is taken", taken == written.len());
    holds(rt, "no lines", reply.lines.as_slice().is_empty());
    Ok(())
}

fn check_head(rt: &impl Abort, alloc: Global, head: Head, text: &[u8]) -> Result<(), Fail> {
    same(rt, head.text().bytes(), text);
    let end: &[u8] = if head.has_list() {
        b"\r\n.\r\n"
    } else {
        b"\r\n"
    };
    let mut sink = MemorySink::new(alloc).in_pieces(7);
    let lines = Lines::new(alloc);
    Reply { head, lines }.write(&mut sink)?;
    let written = sink.bytes();
    same(rt, written.strip_prefix(text).unwrap_or(b""), end);
    for cut in 0..written.len() {
        is_head(rt, alloc, written, cut, text)?;
    }
    Ok(())
}

#[test]
fn heads_without_more(rt: HostRuntime) -> Result<(), Fail> {
    let heads: [(Head, &[u8]); 11] = [
        (Head::Ok, b"200 Ok"),
        (Head::ListFollows, b"201 List follows"),
        (Head::MessageFollows, b"202 Message follows"),
        (
            Head::Birth {
                birth: 18_446_744_073_709_551_615,
            },
            b"205 Birth 18446744073709551615",
        ),
        (Head::Ready, b"220 pcmail DMSP ready"),
        (Head::Closing, b"221 Closing"),
        (Head::SendMessage, b"300 Send message"),
        (Head::WantOfMemory, b"500 Want of memory"),
        (Head::DeviceFailed, b"501 Device failed"),
        (
            Head::ChangeMissing { number: 0 },
            b"502 Change 0 is missing",
        ),
        (
            Head::ChangeMissing {
                number: 18_446_744_073_709_551_615,
            },
            b"502 Change 18446744073709551615 is missing",
        ),
    ];
    for (head, text) in heads {
        check_head(&rt, rt.alloc(), head, text)?;
    }
    Ok(())
}

#[test]
fn heads_of_refusals(rt: HostRuntime) -> Result<(), Fail> {
    let refusals: [(Refusal, &[u8]); 28] = [
        (Refusal::UnknownOperation, b"400 Unknown operation"),
        (Refusal::WrongArguments, b"401 Wrong arguments"),
        (Refusal::LineTooLong, b"402 Line too long"),
        (Refusal::NotLoggedIn, b"403 Not logged in"),
        (Refusal::AlreadyLoggedIn, b"404 Already logged in"),
        (Refusal::BadUserOrPassword, b"405 Bad user or password"),
        (Refusal::NoSuchClient, b"406 No such client"),
        (
            Refusal::Superseded {
                number: 18_446_744_073_709_551_615,
            },
            b"407 Superseded by session 18446744073709551615",
        ),
        (Refusal::NoMailboxSelected, b"408 No mailbox selected"),
        (Refusal::NoSuchMailbox, b"409 No such mailbox"),
        (Refusal::MailboxExists, b"410 Mailbox exists"),
        (Refusal::BadName, b"411 Bad name"),
        (Refusal::NoSuchMessage, b"412 No such message"),
        (Refusal::NoSuchFlag, b"413 No such flag"),
        (Refusal::NoSuchAddress, b"414 No such address"),
        (Refusal::AddressTaken, b"415 Address taken"),
        (
            Refusal::UnknownRecipient {
                shown: Recipient::shown(b"a b"),
            },
            b"416 Unknown recipient a?b",
        ),
        (
            Refusal::UnknownRecipient {
                shown: Recipient::shown(b""),
            },
            b"416 Unknown recipient -",
        ),
        (Refusal::MessageTooLarge, b"417 Message too large"),
        (
            Refusal::LimitReached {
                limit: LimitWord::Uids,
            },
            b"418 Limit reached uids",
        ),
        (Refusal::NoSuchBoard, b"419 No such board"),
        (Refusal::NotSubscribed, b"420 Not subscribed"),
        (Refusal::AlreadySubscribed, b"421 Already subscribed"),
        (Refusal::ReadOnly, b"422 Read only"),
        (Refusal::ClientExists, b"423 Client exists"),
        (Refusal::ClientHasSession, b"428 Client has a session"),
        (Refusal::VersionUnknown, b"429 Version unknown"),
        (Refusal::JournalFull, b"430 Journal full"),
    ];
    for (refusal, text) in refusals {
        check_head(&rt, rt.alloc(), Head::Refused(refusal), text)?;
    }
    Ok(())
}

fn is_no_head(rt: &impl Abort, line: &[u8]) {
    assert!(rt; Head::read(line).is_none(), "{line:?}");
}

#[test]
fn lines_that_are_no_heads(rt: HostRuntime) {
    is_no_head(&rt, b"");
    is_no_head(&rt, b"200 ok");
    is_no_head(&rt, b"200 Ok ");
    is_no_head(&rt, b" 200 Ok");
    is_no_head(&rt, b"200");
    is_no_head(&rt, b"0200 Ok");
    is_no_head(&rt, b"205 Birth 03");
    is_no_head(&rt, b"205 Birth ");
    is_no_head(&rt, b"205 Birth 18446744073709551616");
    is_no_head(&rt, b"206 Number 1 made 3");
    is_no_head(&rt, b"407 Superseded by session 00");
    is_no_head(&rt, b"407 Superseded by session 18446744073709551616");
    is_no_head(&rt, b"416 Unknown recipient ");
    is_no_head(&rt, b"416 Unknown recipient a b");
    is_no_head(&rt, b"418 Limit reached uid");
    is_no_head(&rt, b"424 Client exists");
    is_no_head(&rt, b"502 Change 18446744073709551616 is missing");
    is_no_head(&rt, b"502 Change 1 is missing.");
    is_no_head(&rt, b"502 Change  is missing");
    is_no_head(&rt, b"502 Change ");
}

/// A list, and the reply behind it.
static FOLLOWED: &[u8] =
    b"202 Message follows\r\n..\r\n...\r\n..x\r\n\r\na\r\r\n \r\n.\r\n200 Ok\r\n";

/// The lines of the list.
static LISTED: [&[u8]; 6] = [b".", b"..", b".x", b"", b"a\r", b" "];

#[test]
fn lists_are_written(rt: HostRuntime) -> Result<(), Fail> {
    let reply = Reply {
        head: Head::MessageFollows,
        lines: lines_of(rt.alloc(), &LISTED)?,
    };
    let mut sink = MemorySink::new(rt.alloc());
    reply.write(&mut sink)?;
    let wanted = FOLLOWED.strip_suffix(b"200 Ok\r\n");
    same(&rt, sink.bytes(), wanted.unwrap_or(b""));
    Ok(())
}

/// The list is read where it comes in two pieces, and nothing behind it is taken.
fn is_list(rt: &impl Abort, alloc: Global, cut: usize) -> Result<(), Fail> {
    let (reply, taken) = read_cut(alloc, FOLLOWED, cut)?;
    same(rt, FOLLOWED.get(taken..).unwrap_or(b""), b"200 Ok\r\n");
    same(rt, reply.head.text().bytes(), b"202 Message follows");
    lines_are(rt, &reply.lines, &LISTED);
    Ok(())
}

#[test]
fn lists_are_read_in_every_cutting(rt: HostRuntime) -> Result<(), Fail> {
    for cut in 0..FOLLOWED.len() - 8 {
        is_list(&rt, rt.alloc(), cut)?;
    }
    Ok(())
}

/// The place of the line that is refused.
fn bad_at(rt: &impl Abort, alloc: Global, bytes: &[u8], place: Option<u64>) -> Result<(), Fail> {
    let found = bad_place(alloc, bytes)?;
    assert_eq!(rt; found, place);
    Ok(())
}

#[test]
fn places_of_lines_that_fit_none(rt: HostRuntime) -> Result<(), Fail> {
    let alloc = rt.alloc();
    bad_at(&rt, alloc, b"200 Okay\r\n", Some(0))?;
    bad_at(&rt, alloc, b"200 Okay", None)?;
    bad_at(&rt, alloc, &[b'x'; 513], Some(0))?;
    let mut listed = [b'x'; 1021];
    listed[..20].copy_from_slice(b"201 List follows\ny\r\n");
    bad_at(&rt, alloc, &listed, Some(20))?;
    Ok(())
}

/// The feed waits for more behind the bytes.
fn goes_on(rt: &impl Abort, feed: &mut ReplyFeed, bytes: &[u8]) -> Result<(), Fail> {
    let (next, _) = told(feed, bytes)?;
    holds(rt, "more", matches!(next, ReplyNext::More));
    Ok(())
}

/// The feed refuses the line at this place, which the bytes end.
fn refuses(rt: &impl Abort, feed: &mut ReplyFeed, bytes: &[u8], at: u64) -> Result<(), Fail> {
    let (next, _) = told(feed, bytes)?;
    holds(
        rt,
        "refused",
        matches!(next, ReplyNext::Bad { place } if place == at),
    );
    Ok(())
}

#[test]
fn lists_have_at_most_32768_lines(rt: HostRuntime) -> Result<(), Fail> {
    let mut feed = ReplyFeed::new(rt.alloc());
    goes_on(&rt, &mut feed, b"201 List follows\r\n")?;
    for _ in 0..32_768u32 {
        goes_on(&rt, &mut feed, b"x\r\n")?;
    }
    refuses(&rt, &mut feed, b"x\r\n", 98_322)
}

#[test]
fn lists_have_at_most_4194304_bytes(rt: HostRuntime) -> Result<(), Fail> {
    let mut line = [b'x'; 1000];
    line[998..].copy_from_slice(b"\r\n");
    let mut feed = ReplyFeed::new(rt.alloc());
    goes_on(&rt, &mut feed, b"201 List follows\r\n")?;
    for _ in 0..4194u32 {
        goes_on(&rt, &mut feed, &line)?;
    }
    refuses(&rt, &mut feed, &line, 4_194_018)
}

/// Six lines of two changes.
static CHANGES: [&[u8]; 6] = [
    b"4294967295 EXPUNGED",
    b"1 1000000000000001 24 6",
    b"",
    b"ann",
    b"bob",
    b"one",
];

fn descriptor(alloc: Global) -> Result<Descriptor, Fail> {
    Ok(Descriptor {
        uid: 1,
        flags: 0x8001,
        bytes: 24,
        lines: 6,
        date: Line::copy_of(alloc, b"")?,
        from: Line::copy_of(alloc, b"ann")?,
        to: Line::copy_of(alloc, b"bob")?,
        subject: Line::copy_of(alloc, b"one")?,
    })
}

/// The changes are written as the six lines.
fn are_written(rt: &impl Abort, alloc: Global, changes: &[Change]) -> Result<(), Fail> {
    let mut lines = Lines::new(alloc);
    for change in changes {
        push_change(alloc, &mut lines, change)?;
    }
    lines_are(rt, &lines, &CHANGES);
    Ok(())
}

#[test]
fn changes_are_written(rt: HostRuntime) -> Result<(), Fail> {
    let gone = Change::Expunged(4_294_967_295);
    let there = Change::Present(descriptor(rt.alloc())?);
    are_written(&rt, rt.alloc(), &[gone, there])
}

#[test]
fn changes_are_read(rt: HostRuntime) -> Result<(), Fail> {
    let changes = read_changes(rt.alloc(), &lines_of(rt.alloc(), &CHANGES)?)?;
    are_written(&rt, rt.alloc(), changes.as_slice())
}

/// The lines are refused at this line, or read where it's `None`.
fn faulty_at(
    rt: &impl Abort,
    alloc: Global,
    texts: &[&[u8]],
    fault: Option<usize>,
) -> Result<(), Fail> {
    let wanted = fault.map(|line| ItemFault::Bad { line });
    let found = read_changes(alloc, &lines_of(alloc, texts)?).err();
    assert!(rt; found == wanted, "{texts:?}");
    Ok(())
}

/// The first line of a message that is there.
const FIRST: &[u8] = b"1 0000000000000000 24 6";

static SHORT: [u8; 128] = [b'x'; 128];

static LONG: [u8; 129] = [b'x'; 129];

#[test]
fn faults_of_texts(rt: HostRuntime) -> Result<(), Fail> {
    let alloc = rt.alloc();
    faulty_at(&rt, alloc, &[], None)?;
    faulty_at(&rt, alloc, &[FIRST, b"", b"", &SHORT, b""], None)?;
    faulty_at(&rt, alloc, &[FIRST, b"", b"", &LONG, b""], Some(3))?;
    faulty_at(&rt, alloc, &[FIRST, b"", b"", b""], Some(4))?;
    faulty_at(&rt, alloc, &[FIRST], Some(1))?;
    faulty_at(&rt, alloc, &[b"1 EXPUNGED", FIRST], Some(1))?;
    faulty_at(
        &rt,
        alloc,
        &[b"1 EXPUNGED", b"2 EXPUNGED", b"1 EXPUNGED"],
        Some(2),
    )
}

#[test]
fn faults_of_first_lines(rt: HostRuntime) -> Result<(), Fail> {
    let alloc = rt.alloc();
    faulty_at(&rt, alloc, &[b"01 EXPUNGED"], Some(0))?;
    faulty_at(&rt, alloc, &[b"1 expunged"], Some(0))?;
    faulty_at(&rt, alloc, &[b"1  EXPUNGED"], Some(0))?;
    faulty_at(&rt, alloc, &[b"4294967296 EXPUNGED"], Some(0))?;
    faulty_at(&rt, alloc, &[b"1 000000000000000 24 6"], Some(0))?;
    faulty_at(&rt, alloc, &[b"1 000000000000000x 24 6"], Some(0))?;
    faulty_at(&rt, alloc, &[b"1 0000000000000000 024 6"], Some(0))?;
    faulty_at(&rt, alloc, &[b"1 0000000000000000 24"], Some(0))?;
    faulty_at(&rt, alloc, &[b""], Some(0))
}

fn name(bytes: &[u8]) -> Result<Name, Fail> {
    Ok(Name::read(bytes).ok_or("a name")?)
}

#[test]
fn mailboxes_are_written(rt: HostRuntime) -> Result<(), Fail> {
    let alloc = rt.alloc();
    let inbox = counted_line(alloc, &name(b"inbox")?, 0, 0)?;
    same(&rt, inbox.bytes(), b"inbox 0 0");
    let work = counted_line(alloc, &name(b"work")?, 0, 0)?;
    same(&rt, work.bytes(), b"work 0 0");
    Ok(())
}

fn mailboxes_of(alloc: Global, texts: &[&[u8]]) -> Result<Names, Fail> {
    Ok(read_mailboxes(alloc, &lines_of(alloc, texts)?)?)
}

#[test]
fn mailboxes_are_read(rt: HostRuntime) -> Result<(), Fail> {
    let names = mailboxes_of(rt.alloc(), &[b"inbox 0 0", b"work 0 0"])?;
    let [first, second] = names.as_slice() else {
        return Err(Fail::from("two names"));
    };
    same(&rt, first.bytes(), b"inbox");
    same(&rt, second.bytes(), b"work");
    let largest = mailboxes_of(rt.alloc(), &[b"work 4294967295 4294967295"])?;
    holds(&rt, "one name", largest.as_slice().len() == 1);
    Ok(())
}

/// The lines are refused at this line.
fn no_mailbox(rt: &impl Abort, alloc: Global, texts: &[&[u8]], line: usize) -> Result<(), Fail> {
    let found = read_mailboxes(alloc, &lines_of(alloc, texts)?).err();
    assert!(rt; found == Some(ItemFault::Bad { line }), "{texts:?}");
    Ok(())
}

#[test]
fn lines_that_are_no_mailboxes(rt: HostRuntime) -> Result<(), Fail> {
    let alloc = rt.alloc();
    no_mailbox(&rt, alloc, &[b"inbox 0 0", b"work 0 0", b"inbox 1 1"], 2)?;
    no_mailbox(&rt, alloc, &[b"inbox 00 0"], 0)?;
    no_mailbox(&rt, alloc, &[b"inbox 0"], 0)?;
    no_mailbox(&rt, alloc, &[b"inbox 0 0 "], 0)?;
    no_mailbox(&rt, alloc, &[b"inbox 0 4294967296"], 0)?;
    no_mailbox(&rt, alloc, &[b"inbox 0 0", b"Work 0 0"], 1)
}

#[test]
fn other_lines(rt: HostRuntime) -> Result<(), Fail> {
    let alloc = rt.alloc();
    let name = name(b"ws1")?;
    let away = client_line(alloc, &name, 3, Mode::Away)?;
    same(&rt, away.bytes(), b"ws1 3 away");
    let batch = client_line(alloc, &name, 3, Mode::Batch)?;
    same(&rt, batch.bytes(), b"ws1 3 batch");
    let last = client_line(alloc, &name, u64::MAX, Mode::Interactive)?;
    same(&rt, last.bytes(), b"ws1 18446744073709551615 interactive");
    same(&rt, name_line(alloc, &name)?.bytes(), b"ws1");
    Ok(())
}

#[test]
fn a_sink_that_fails_has_a_front(rt: HostRuntime) -> Result<(), Fail> {
    let alloc = rt.alloc();
    let reply = Reply {
        head: Head::ListFollows,
        lines: lines_of(alloc, &[b"a"])?,
    };
    let mut sink = MemorySink::new(alloc).in_pieces(4).failing_at(3);
    holds(&rt, "it fails", reply.write(&mut sink).is_err());
    same(&rt, sink.bytes(), b"201 List");
    Ok(())
}
