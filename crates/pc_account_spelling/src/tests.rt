use super::*;
use pc_account_history::Entry;
use pc_base::{Bytes, Lines, Name, ReadFault};
use pc_message::{Letters, Message};
use std::alloc::Global;
use std::process::Abort;
use std::test::Fail;

const FLAG: &[u8] = b"\x03\x05inbox\x00\x00\x00\x07\x01\x01";

const COPY: &[u8] = b"\x05\x05inbox\x00\x00\x01\x02\x04work";

const FORGET: &[u8] = b"\x0a\x03ws1\x05inbox\x00\x00\x00\x02\x00\x00\x00\x03\x00\x00\x00\x09";

const PULL: &[u8] =
    b"\x0b\x00\x00\x00\x01\x00\x00\x00\x02\x00\x01\x05inbox\x00\x00\x00\x02\x00\x07To: ann\x00\x00";

const PASSWORD: &[u8] = b"\x0c0123456789abcdef0123456789abcdef";

/// Where the bytes stop being an entry; nothing where they are one.
fn place_of(alloc: Global, bytes: &[u8]) -> Result<Option<u64>, Fail> {
    match read_entry(alloc, bytes) {
        Ok(_) => Ok(None),
        Err(ReadFault::Malformed { place }) => Ok(Some(place)),
        Err(ReadFault::Memory) => Err("no memory")?,
    }
}

/// Whether the bytes are read as an entry of this kind, which fits, and written again as they were.
fn is_read_back(alloc: Global, bytes: &[u8], word: &[u8]) -> Result<bool, Fail> {
    let Ok(entry) = read_entry(alloc, bytes) else {
        return Ok(false);
    };
    let mut written = Bytes::new(alloc);
    write_entry(&entry, &mut written)?;
    Ok(fits(&entry) && entry.word() == word && written.as_slice() == bytes)
}

/// The first of these fields that the first bytes don't have whole.
fn cut_field(fields: &[u64], count: u64) -> Option<u64> {
    let mut cut = None;
    for field in fields {
        if *field <= count {
            cut = Some(*field);
        }
    }
    cut
}

/// Whether the bytes, cut off anywhere, stop being an entry at the field that is cut.
fn are_cut_at(alloc: Global, bytes: &[u8], fields: &[u64]) -> Result<bool, Fail> {
    for count in 0..bytes.len() {
        if place_of(alloc, &bytes[..count])? != cut_field(fields, count as u64) {
            return Ok(false);
        }
    }
    Ok(true)
}

/// These bytes were wanted.
fn same(rt: &impl Abort, found: &[u8], wanted: &[u8]) {
    assert_eq!(rt; found, wanted);
}

/// This was wanted.
fn holds(rt: &impl Abort, what: &str, is: bool) {
    assert!(rt; is, "{what}");
}

/// The bytes stop being an entry at this place.
fn has_fault(
    rt: &impl Abort,
    alloc: Global,
    bytes: &[u8],
    wanted: Option<u64>,
) -> Result<(), Fail> {
    let place = place_of(alloc, bytes)?;
    assert_eq!(rt; place, wanted, "{bytes:?}");
    Ok(())
}

/// The bytes are an entry of this kind, whose fields begin at these places.
fn is_entry(
    rt: &impl Abort,
    alloc: Global,
    bytes: &[u8],
    word: &[u8],
    fields: &[u64],
) -> Result<(), Fail> {
    let is = is_read_back(alloc, bytes, word)? && are_cut_at(alloc, bytes, fields)?;
    assert!(rt; is, "{bytes:?}");
    Ok(())
}

static ENTRIES: [(&[u8], &[u8], &[u64]); 15] = [
    (b"\x01\x05inbox", b"MakeMailbox", &[0, 1]),
    (b"\x02\x05inbox", b"DropMailbox", &[0, 1]),
    (b"\x04\x05inbox", b"Expunge", &[0, 1]),
    (b"\x06\x03ws1", b"MakeClient", &[0, 1]),
    (b"\x07\x03ws1", b"DropClient", &[0, 1]),
    (b"\x08\x03ws1", b"ResetClient", &[0, 1]),
    (b"\x0d\x04news", b"Subscribe", &[0, 1]),
    (b"\x0e\x04news", b"Unsubscribe", &[0, 1]),
    (FLAG, b"Flag", &[0, 1, 7, 11, 12]),
    (COPY, b"Copy", &[0, 1, 7, 11]),
    (b"\x09\x03ws1\x05inbox", b"ResetMailbox", &[0, 1, 5]),
    (FORGET, b"Forget", &[0, 1, 5, 11, 15, 19]),
    (PULL, b"Pull", &[0, 1, 9, 11, 17, 21, 30]),
    (PASSWORD, b"Password", &[0, 1]),
    (b"\x0f\x04news\xff\xff\xff\xff", b"Mark", &[0, 1, 6]),
];

#[test]
fn entries_are_read_and_written(rt: HostRuntime) -> Result<(), Fail> {
    for (bytes, word, fields) in &ENTRIES {
        is_entry(&rt, rt.alloc(), bytes, word, fields)?;
    }
    Ok(())
}

#[test]
fn numbers_are_told_apart(rt: HostRuntime) -> Result<(), Fail> {
    let read = read_entry(rt.alloc(), FLAG);
    let Ok(
        Entry::Flag {
            mailbox,
            uid,
            flag,
            on,
        },
    ) = &read
    else {
        return Err("a flag")?;
    };
    same(&rt, mailbox.bytes(), b"inbox");
    holds(&rt, "uid 7", *uid == 7);
    holds(&rt, "flag 1", *flag == 1);
    holds(&rt, "on", *on);
    Ok(())
}

#[test]
fn names_are_told_apart(rt: HostRuntime) -> Result<(), Fail> {
    let read = read_entry(rt.alloc(), COPY);
    let Ok(
        Entry::Copy {
            mailbox,
            uid,
            target,
        },
    ) = &read
    else {
        return Err("a copy")?;
    };
    same(&rt, mailbox.bytes(), b"inbox");
    holds(&rt, "uid 258", *uid == 258);
    same(&rt, target.bytes(), b"work");
    Ok(())
}

#[test]
fn uids_are_told_apart(rt: HostRuntime) -> Result<(), Fail> {
    let read = read_entry(rt.alloc(), FORGET);
    let Ok(
        Entry::Forget {
            client,
            mailbox,
            uids,
        },
    ) = &read
    else {
        return Err("uids")?;
    };
    same(&rt, client.bytes(), b"ws1");
    same(&rt, mailbox.bytes(), b"inbox");
    holds(&rt, "uids 3 and 9", uids.as_slice() == [3, 9].as_slice());
    Ok(())
}

#[test]
fn letters_are_told_apart(rt: HostRuntime) -> Result<(), Fail> {
    let read = read_entry(rt.alloc(), PULL);
    let Ok(Entry::Pull { upto, letters }) = &read else {
        return Err("a pull")?;
    };
    let [(mailbox, message)] = letters.as_slice() else {
        return Err("a letter")?;
    };
    holds(&rt, "up to 4294967298", *upto == 4_294_967_298);
    same(&rt, mailbox.bytes(), b"inbox");
    holds(&rt, "11 bytes", message.size() == 11);
    Ok(())
}

static FAULTS: [(&[u8], Option<u64>); 16] = [
    (b"", Some(0)),
    (b"\x00\x05inbox", Some(0)),
    (b"\x10\x05inbox", Some(0)),
    (b"\x01\x05inbox\x00", Some(7)),
    (b"\x01\x00", Some(1)),
    (b"\x01\x05Inbox", Some(1)),
    (b"\x01\x051nbox", Some(1)),
    (b"\x01\x20aaaaaaaabbbbbbbbccccccccdddddddd", None),
    (b"\x01\x21aaaaaaaabbbbbbbbccccccccdddddddde", Some(1)),
    (b"\x03\x05inbox\x00\x00\x00\x07\xff\x00", None),
    (b"\x03\x05inbox\x00\x00\x00\x07\x01\x02", Some(12)),
    (b"\x0a\x03ws1\x05inbox\x00\x00\x00\x00", None),
    (b"\x0a\x03ws1\x05inbox\xff\xff\xff\xff", Some(15)),
    (b"\x0b\x00\x00\x00\x00\x00\x00\x00\x02\x00\x00", Some(9)),
    (b"\x0b\x00\x00\x00\x00\x00\x00\x00\x02\x00\x41", Some(9)),
    (
        b"\x0b\x00\x00\x00\x00\x00\x00\x00\x02\x00\x01\x01a\x00\x00\x00\x01\x00\x03a\nb",
        Some(17),
    ),
];

#[test]
fn faults_have_places(rt: HostRuntime) -> Result<(), Fail> {
    for (bytes, wanted) in &FAULTS {
        has_fault(&rt, rt.alloc(), bytes, *wanted)?;
    }
    Ok(())
}

/// A pull of one message, which says that it has so many lines, and whose lines have these bytes.
fn pull_of(alloc: Global, count: u16, lines: &[u16]) -> Result<Vec<u8>, Fail> {
    let mut bytes = Vec::from_slice(alloc, b"\x0b\x00\x00\x00\x00\x00\x00\x00\x02\x00\x01\x01a")?;
    bytes.extend_from_slice(&[0, 0])?;
    bytes.extend_from_slice(&count.to_be_bytes())?;
    for line in lines {
        bytes.extend_from_slice(&line.to_be_bytes())?;
        for _ in 0..*line {
            bytes.push(b'x')?;
        }
    }
    Ok(bytes)
}

/// A pull of one message stops being an entry at this place: 65 of its lines have 1,000 bytes.
fn has_fault_in_pull(
    rt: &impl Abort,
    alloc: Global,
    count: u16,
    last: u16,
    wanted: Option<u64>,
) -> Result<(), Fail> {
    let mut lines = Vec::new(alloc);
    for _ in 0..65 {
        lines.push(1000)?;
    }
    lines.push(last)?;
    has_fault(rt, alloc, &pull_of(alloc, count, &lines)?, wanted)
}

#[test]
fn messages_are_limited(rt: HostRuntime) -> Result<(), Fail> {
    // 17 bytes stand before the first line, and 1,002 are those of a line of 1,000
    has_fault_in_pull(&rt, rt.alloc(), 66, 404, None)?;
    has_fault_in_pull(&rt, rt.alloc(), 66, 405, Some(65_147))?;
    has_fault_in_pull(&rt, rt.alloc(), 67, 402, Some(65_551))?;
    has_fault_in_pull(&rt, rt.alloc(), 67, 403, Some(65_147))?;
    has_fault(&rt, rt.alloc(), &pull_of(rt.alloc(), 1, &[1001])?, Some(17))
}

/// A pull of one message with 32,768 empty lines, which says that it has so many, stops being an
/// entry at this place.
fn has_fault_in_lines(
    rt: &impl Abort,
    alloc: Global,
    count: u16,
    wanted: Option<u64>,
) -> Result<(), Fail> {
    let mut lines = Vec::new(alloc);
    for _ in 0..32_768 {
        lines.push(0)?;
    }
    has_fault(rt, alloc, &pull_of(alloc, count, &lines)?, wanted)
}

#[test]
fn lines_are_limited(rt: HostRuntime) -> Result<(), Fail> {
    has_fault_in_lines(&rt, rt.alloc(), 32_768, None)?;
    has_fault_in_lines(&rt, rt.alloc(), 32_769, Some(13))
}

/// A pull of so many letters.
fn letters_of(alloc: Global, count: u8) -> Result<Vec<u8>, Fail> {
    let mut bytes = Vec::from_slice(alloc, b"\x0b\x00\x00\x00\x00\x00\x00\x00\x02\x00")?;
    bytes.push(count)?;
    for _ in 0..count {
        bytes.extend_from_slice(b"\x01a\x00\x00\x00\x00")?;
    }
    Ok(bytes)
}

#[test]
fn pulls_are_limited(rt: HostRuntime) -> Result<(), Fail> {
    has_fault(&rt, rt.alloc(), &letters_of(rt.alloc(), 64)?, None)?;
    has_fault(&rt, rt.alloc(), &letters_of(rt.alloc(), 65)?, Some(9))
}

/// So many letters.
fn letters(alloc: Global, count: u32) -> Result<Letters, Fail> {
    let mailbox = Name::read(b"inbox").ok_or("a name")?;
    let mut letters = Letters::new(alloc);
    for _ in 0..count {
        let Ok(message) = Message::of(Lines::new(alloc)) else {
            return Err("a message")?;
        };
        letters.push((mailbox, message))?;
    }
    Ok(letters)
}

/// A pull of so many letters fits, or it doesn't.
fn pull_fits(rt: &impl Abort, alloc: Global, count: u32, wanted: bool) -> Result<(), Fail> {
    let letters = letters(alloc, count)?;
    assert_eq!(rt; fits(&Entry::Pull { upto: 1, letters }), wanted, "{count}");
    Ok(())
}

#[test]
fn pulls_that_do_not_fit(rt: HostRuntime) -> Result<(), Fail> {
    pull_fits(&rt, rt.alloc(), 0, false)?;
    pull_fits(&rt, rt.alloc(), 1, true)?;
    pull_fits(&rt, rt.alloc(), 64, true)?;
    pull_fits(&rt, rt.alloc(), 65, false)
}
