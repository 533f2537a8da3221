use super::*;
use pc_base::{Line, Lines, Name, Names};
use std::alloc::Global;
use std::process::Abort;
use std::test::Fail;

fn lines_of(alloc: Global, texts: &[&str]) -> Result<Lines, Fail> {
    let mut lines = Lines::new(alloc);
    for text in texts {
        lines.push(Line::copy_of(alloc, text.as_bytes())?)?;
    }
    Ok(lines)
}

fn message_of(alloc: Global, texts: &[&str]) -> Result<Message, Fail> {
    let message = Message::of(lines_of(alloc, texts)?)
        .ok()
        .ok_or("too large")?;
    Ok(message)
}

fn same_number(rt: &impl Abort, what: &str, found: u64, want: u64) {
    assert_eq!(rt; found, want, "{what}");
}

fn same_bytes(rt: &impl Abort, what: &str, found: &[u8], want: &[u8]) {
    assert_eq!(rt; found, want, "{what}");
}

/// The names of a message with a blank behind each, or what is wrong.
fn told(alloc: Global, texts: &[&str]) -> Result<Vec<u8>, Fail> {
    let message = message_of(alloc, texts)?;
    told_of(alloc, &message)
}

fn told_of(alloc: Global, message: &Message) -> Result<Vec<u8>, Fail> {
    let found = recipients(alloc, message);
    told_found(alloc, &found)
}

fn told_found(alloc: Global, found: &Result<Names, RecipientFault>) -> Result<Vec<u8>, Fail> {
    match found {
        Ok(names) => told_names(alloc, names),
        Err(RecipientFault::Unknown { shown }) => told_bytes(alloc, b"unknown: ", shown.bytes()),
        Err(RecipientFault::TooMany) => told_bytes(alloc, b"too many", b""),
        Err(RecipientFault::Memory) => told_bytes(alloc, b"no memory", b""),
    }
}

fn told_names(alloc: Global, names: &Names) -> Result<Vec<u8>, Fail> {
    let mut told = Vec::new(alloc);
    for name in names.as_slice() {
        told.extend_from_slice(name.bytes())?;
        told.push(b' ')?;
    }
    Ok(told)
}

fn told_bytes(alloc: Global, front: &[u8], back: &[u8]) -> Result<Vec<u8>, Fail> {
    let mut told = Vec::new(alloc);
    told.extend_from_slice(front)?;
    told.extend_from_slice(back)?;
    Ok(told)
}

/// Looks whether this is told of the names of a message.
fn tells(rt: &impl Abort, alloc: Global, texts: &[&str], want: &str) -> Result<(), Fail> {
    let found = told(alloc, texts)?;
    same_bytes(rt, want, found.as_slice(), want.as_bytes());
    Ok(())
}

#[test]
fn size_counts_line_ends(rt: HostRuntime) -> Result<(), Fail> {
    let message = message_of(rt.alloc(), &["To: ann", "", ".", "..", "", ".x"])?;
    same_number(&rt, "size", message.size() as u64, 24);
    same_number(&rt, "weight", message.weight() as u64, 280);
    is_copied(&rt, rt.alloc(), &message)
}

fn is_copied(rt: &impl Abort, alloc: Global, message: &Message) -> Result<(), Fail> {
    let copy = message.copy(alloc)?;
    same_number(rt, "size of the copy", copy.size() as u64, 24);
    is_described(rt, alloc, &copy)
}

fn is_described(rt: &impl Abort, alloc: Global, message: &Message) -> Result<(), Fail> {
    let told = describe(alloc, message, 1, 0)?;
    same_number(rt, "bytes", told.bytes as u64, 24);
    same_number(rt, "lines", told.lines as u64, 6);
    same_bytes(rt, "to", told.to.bytes(), b"ann");
    same_bytes(rt, "subject", told.subject.bytes(), b"");
    Ok(())
}

#[test]
fn size_is_limited(rt: HostRuntime) -> Result<(), Fail> {
    fits(&rt, filled(rt.alloc(), 393)?, true);
    fits(&rt, filled(rt.alloc(), 394)?, false);
    Ok(())
}

/// The lines of a message of 65 long lines, with one of so many bytes behind them.
fn filled(alloc: Global, last: usize) -> Result<Lines, Fail> {
    let mut lines = lines_of(alloc, &["To: ann", ""])?;
    let text = [b'x'; 1000];
    for _ in 0..65 {
        lines.push(Line::copy_of(alloc, &text)?)?;
    }
    let text = text.get(..last).ok_or("a short line")?;
    lines.push(Line::copy_of(alloc, text)?)?;
    Ok(lines)
}

/// Looks whether the lines are a message of 65,536 bytes, or given back.
fn fits(rt: &impl Abort, lines: Lines, want: bool) {
    match Message::of(lines) {
        Ok(message) => {
            assert!(rt; want, "too large");
            same_number(rt, "size", message.size() as u64, 65_536);
        }
        Err(lines) => {
            assert!(rt; !want, "not too large");
            same_number(rt, "lines", lines.as_slice().len() as u64, 68);
        }
    }
}

#[test]
fn header_ends_at_the_first_empty_line(rt: HostRuntime) -> Result<(), Fail> {
    for (texts, header) in &HEADERS {
        has_header(&rt, rt.alloc(), texts, header)?;
    }
    Ok(())
}

/// Messages, and their headers with a bar behind each line.
static HEADERS: [(&[&str], &str); 4] = [
    (&["To: ann", " bob", "", "text", ""], "To: ann| bob|"),
    (&["To: ann", " "], "To: ann| |"),
    (&["", "To: ann"], ""),
    (&[], ""),
];

fn has_header(rt: &impl Abort, alloc: Global, texts: &[&str], want: &str) -> Result<(), Fail> {
    let message = message_of(alloc, texts)?;
    header_is(rt, alloc, &message, want)?;
    let lines = message.into_lines();
    same_number(rt, want, lines.as_slice().len() as u64, texts.len() as u64);
    Ok(())
}

fn header_is(rt: &impl Abort, alloc: Global, message: &Message, want: &str) -> Result<(), Fail> {
    let header = message.header(alloc)?;
    let found = barred(alloc, &header)?;
    same_bytes(rt, "header", found.as_slice(), want.as_bytes());
    Ok(())
}

/// The lines, with a bar behind each.
fn barred(alloc: Global, lines: &Lines) -> Result<Vec<u8>, Fail> {
    let mut found = Vec::new(alloc);
    for line in lines.as_slice() {
        found.extend_from_slice(line.bytes())?;
        found.push(b'|')?;
    }
    Ok(found)
}

#[test]
fn fields_are_read(rt: HostRuntime) -> Result<(), Fail> {
    let message = message_of(rt.alloc(), &FIELDS)?;
    has_fields(&rt, rt.alloc(), &message)
}

fn has_fields(rt: &impl Abort, alloc: Global, message: &Message) -> Result<(), Fail> {
    let told = describe(alloc, message, 7, 3)?;
    same_number(rt, "uid", told.uid as u64, 7);
    same_number(rt, "flags", told.flags as u64, 3);
    same_number(rt, "lines", told.lines as u64, 13);
    same_bytes(rt, "date", told.date.bytes(), b"1 June");
    same_bytes(rt, "from", told.from.bytes(), b"ann: a \tand    bob");
    same_bytes(rt, "to", told.to.bytes(), b"");
    same_bytes(rt, "subject", told.subject.bytes(), CUT);
    Ok(())
}

static FIELDS: [&str; 13] = [
    " folded under nothing",
    "DATE: 1 June ",
    "Fromage: x",
    "fRoM:\t ann: a ",
    "\tand  ",
    "  bob \t",
    "to : not a field",
    "To:",
    "subject:\t 123456789 123456789 123456789 123456789 123456789 123456789 123456789 123456789 123456789 123456789 123456789 123456789 123456789 ",
    "Subject: second",
    "Reply-To: eve",
    "",
    "Date: in the text",
];

/// The first 128 bytes of the subject.
const CUT: &[u8] =
    b"123456789 123456789 123456789 123456789 123456789 123456789 123456789 123456789 123456789 123456789 123456789 123456789 12345678";

#[test]
fn recipients_are_read(rt: HostRuntime) -> Result<(), Fail> {
    for (texts, want) in &RECIPIENTS {
        tells(&rt, rt.alloc(), texts, want)?;
    }
    Ok(())
}

static RECIPIENTS: [(&[&str], &str); 14] = [
    (&["To: \"Doe, Ann\" <ANN@PCMAIL>, bob,, bob"], "ann bob "),
    (&["To: ann smith"], "unknown: ann?smith"),
    (&["Subject: x", "", "To: ann"], "unknown: -"),
    (&["To: ,", "cc: \t"], "unknown: -"),
    (
        &["Cc: bob", "Subject: to: eve", "TO: ann", "CC:bob,", "\teve"],
        "bob ann eve ",
    ),
    (&["To: ann@pcmail@pcmail"], "unknown: ann@pcmail"),
    (&["To: ann, <>, 7"], "unknown: -"),
    (&["To: ann@elsewhere, 7"], "unknown: ann@elsewhere"),
    (&["To: <ann> <bob> x"], "bob "),
    (&["To: <ann> <bob"], "unknown: <ann>?<bob"),
    (&["To: \"<eve>\" <Bob>>"], "bob "),
    (&["To: \"<eve>\""], "unknown: \"<eve>\""),
    (&["To: ann, \"b,", "Cc: \", bob"], "unknown: \"b,"),
    (
        &["To: a123456789a123456789a123456789a123456789a123456789a123456789abcdef"],
        "unknown: a123456789a123456789a123456789a123456789a123456789a123456789abcd",
    ),
];

#[test]
fn recipients_are_limited(rt: HostRuntime) -> Result<(), Fail> {
    names(&rt, rt.alloc(), &MANY[..8], 64)?;
    tells(&rt, rt.alloc(), &MANY[..9], "too many")?;
    tells(&rt, rt.alloc(), &MANY, "unknown: +")
}

/// Looks whether a message names so many.
fn names(rt: &impl Abort, alloc: Global, texts: &[&str], want: u64) -> Result<(), Fail> {
    let message = message_of(alloc, texts)?;
    let names = recipients(alloc, &message).ok().ok_or("names")?;
    same_number(rt, "names", names.as_slice().len() as u64, want);
    Ok(())
}

/// 64 names in two fields, one name more, and one that is none.
static MANY: [&str; 10] = [
    "To: a0, a1, a2, a3, a4, a5, a6, a7, b0, b1, b2, b3, b4, b5, b6, b7",
    " , c0, c1, c2, c3, c4, c5, c6, c7, d0, d1, d2, d3, d4, d5, d6, d7",
    " , e0, e1, e2, e3, e4, e5, e6, e7, f0, f1, f2, f3, f4, f5, f6, f7",
    " , g0, g1, g2, g3, g4, g5, g6, g7, h0, h1, h2, h3, h4, h5, h6, h7",
    "To: a0, a1, a2, a3, a4, a5, a6, a7, b0, b1, b2, b3, b4, b5, b6, b7",
    " , c0, c1, c2, c3, c4, c5, c6, c7, d0, d1, d2, d3, d4, d5, d6, d7",
    " , e0, e1, e2, e3, e4, e5, e6, e7, f0, f1, f2, f3, f4, f5, f6, f7",
    " , g0, g1, g2, g3, g4, g5, g6, g7, h0, h1, h2, h3, h4, h5, h6, h7",
    "Cc: i0",
    "Cc: i1, +",
];

#[test]
fn lists_keep_their_items(rt: HostRuntime) -> Result<(), Fail> {
    let name = Name::read(b"inbox").ok_or("a name")?;
    keeps_letters(&rt, rt.alloc(), name)?;
    keeps_mails(&rt, rt.alloc(), name)?;
    keeps_changes(&rt, rt.alloc())
}

fn keeps_letters(rt: &impl Abort, alloc: Global, name: Name) -> Result<(), Fail> {
    let mut letters = Letters::new(alloc);
    letters.push((name, message_of(alloc, &["To: ann"])?))?;
    same_number(rt, "letters", letters.as_slice().len() as u64, 1);
    Ok(())
}

fn keeps_mails(rt: &impl Abort, alloc: Global, name: Name) -> Result<(), Fail> {
    let mut mails = Mails::new(alloc);
    mails.push(Mail {
        number: 1,
        mailbox: name,
        message: message_of(alloc, &[])?,
    })?;
    same_number(rt, "mails", mails.as_slice().len() as u64, 1);
    Ok(())
}

fn keeps_changes(rt: &impl Abort, alloc: Global) -> Result<(), Fail> {
    let mut changes = Changes::new(alloc);
    changes.push(Change::Expunged(3))?;
    changes.push(present(alloc)?)?;
    same_number(rt, "changes", changes.as_slice().len() as u64, 2);
    Ok(())
}

/// A message that is there.
fn present(alloc: Global) -> Result<Change, Fail> {
    let message = message_of(alloc, &[])?;
    Ok(Change::Present(describe(alloc, &message, 4, 0)?))
}
