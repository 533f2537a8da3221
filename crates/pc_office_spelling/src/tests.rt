use super::*;
use pc_base::{Bytes, Lines, Name, Names, ReadFault};
use pc_message::Message;
use pc_office_history::OfficeEntry;
use std::alloc::Global;
use std::process::Abort;
use std::test::Fail;

const TAKE: &[u8] = b"\x03\x05sales\x03ann\x05inbox";

const ACCEPT: &[u8] = b"\x05\x00\x02\x03ann\x04news\x00\x00\x00\x02\x00\x07To: ann\x00\x00";

const PULLED: &[u8] = b"\x06\x03ann\x00\x00\x00\x01\x00\x00\x00\x02";

/// Where the bytes stop being an entry; nothing where they are one.
fn place_of(alloc: Global, bytes: &[u8]) -> Result<Option<u64>, Fail> {
    match read_entry(alloc, bytes) {
        Ok(_) => Ok(None),
        Err(ReadFault::Malformed { place }) => Ok(Some(place)),
        Err(ReadFault::Memory) => Err("no memory")?,
    }
}

/// Whether the bytes are read as an entry with this tag, which fits, and written again as they were.
fn is_read_back(alloc: Global, bytes: &[u8], tag: u8) -> Result<bool, Fail> {
    let Ok(entry) = read_entry(alloc, bytes) else {
        return Ok(false);
    };
    let mut written = Bytes::new(alloc);
    write_entry(&entry, &mut written)?;
    Ok(fits(&entry) && entry.tag() == tag && written.as_slice() == bytes)
}

/// The last of these places that is no higher than this one.
fn cut_field(fields: &[u64], count: u64) -> Option<u64> {
    let mut cut = None;
    for field in fields {
        if *field <= count {
            cut = Some(*field);
        }
    }
    cut
}

/// Whether the bytes, cut off anywhere, stop being an entry at the field that is cut.
fn are_cut_at(alloc: Global, bytes: &[u8], fields: &[u64]) -> Result<bool, Fail> {
    for count in 0..bytes.len() {
        if place_of(alloc, &bytes[..count])? != cut_field(fields, count as u64) {
            return Ok(false);
        }
    }
    Ok(true)
}

/// These bytes were wanted.
fn same(rt: &impl Abort, found: &[u8], wanted: &[u8]) {
    assert_eq!(rt; found, wanted);
}

/// This was wanted.
fn holds(rt: &impl Abort, what: &str, is: bool) {
    assert!(rt; is, "{what}");
}

/// The bytes stop being an entry at this place.
fn has_fault(
    rt: &impl Abort,
    alloc: Global,
    bytes: &[u8],
    wanted: Option<u64>,
) -> Result<(), Fail> {
    let place = place_of(alloc, bytes)?;
    assert_eq!(rt; place, wanted, "{bytes:?}");
    Ok(())
}

/// The bytes are an entry with this tag, whose fields begin at these places.
fn is_entry(
    rt: &impl Abort,
    alloc: Global,
    bytes: &[u8],
    tag: u8,
    fields: &[u64],
) -> Result<(), Fail> {
    let is = is_read_back(alloc, bytes, tag)? && are_cut_at(alloc, bytes, fields)?;
    assert!(rt; is, "{bytes:?}");
    Ok(())
}

static ENTRIES: [(&[u8], u8, &[u64]); 6] = [
    (b"\x01\x03ann", 1, &[0, 1]),
    (b"\x02\x04news", 2, &[0, 1]),
    (TAKE, 3, &[0, 1, 7, 11]),
    (b"\x04\x05sales", 4, &[0, 1]),
    (ACCEPT, 5, &[0, 1, 3, 7, 12, 16, 25]),
    (PULLED, 6, &[0, 1, 5]),
];

#[test]
fn entries_are_read_and_written(rt: HostRuntime) -> Result<(), Fail> {
    for (bytes, tag, fields) in &ENTRIES {
        is_entry(&rt, rt.alloc(), bytes, *tag, fields)?;
    }
    Ok(())
}

#[test]
fn names_are_told_apart(rt: HostRuntime) -> Result<(), Fail> {
    let read = read_entry(rt.alloc(), TAKE);
    let Ok(
        OfficeEntry::TakeAddress {
            address,
            user,
            mailbox,
        },
    ) = &read
    else {
        return Err("an address")?;
    };
    same(&rt, address.bytes(), b"sales");
    same(&rt, user.bytes(), b"ann");
    same(&rt, mailbox.bytes(), b"inbox");
    Ok(())
}

#[test]
fn mails_are_told_apart(rt: HostRuntime) -> Result<(), Fail> {
    let read = read_entry(rt.alloc(), ACCEPT);
    let Ok(OfficeEntry::Accept { names, message }) = &read else {
        return Err("a mail")?;
    };
    let [first, second] = names.as_slice() else {
        return Err("two names")?;
    };
    same(&rt, first.bytes(), b"ann");
    same(&rt, second.bytes(), b"news");
    holds(&rt, "11 bytes", message.size() == 11);
    Ok(())
}

#[test]
fn numbers_are_told_apart(rt: HostRuntime) -> Result<(), Fail> {
    let read = read_entry(rt.alloc(), PULLED);
    let Ok(OfficeEntry::Pulled { user, number }) = &read else {
        return Err("a number")?;
    };
    same(&rt, user.bytes(), b"ann");
    holds(&rt, "4294967298", *number == 4_294_967_298);
    Ok(())
}

static FAULTS: [(&[u8], Option<u64>); 12] = [
    (b"", Some(0)),
    (b"\x00\x03ann", Some(0)),
    (b"\x07\x03ann", Some(0)),
    (b"\x01\x03ann\x00", Some(5)),
    (b"\x01\x03Ann", Some(1)),
    (b"\x03\x05sales\x03ann\x00", Some(11)),
    (b"\x05\x00\x00\x00\x00\x00\x00", None),
    (b"\x05\x00\x02\x03ann\x00", Some(7)),
    (b"\x05\x00\x01\x03ann\x00\x00\x80\x01", Some(7)),
    (b"\x05\x00\x01\x03ann\x00\x00\x00\x01\x00\x03a\nb", Some(11)),
    (b"\x05\x00\x01\x03ann\x00\x00\x00\x01\x03\xe9", Some(11)),
    (b"\x06\x03ann\xff\xff\xff\xff\xff\xff\xff\xff", None),
];

#[test]
fn faults_have_places(rt: HostRuntime) -> Result<(), Fail> {
    for (bytes, wanted) in &FAULTS {
        has_fault(&rt, rt.alloc(), bytes, *wanted)?;
    }
    Ok(())
}

/// The bytes of a mail of no lines that is for so many names.
fn mail_for(alloc: Global, count: u16) -> Result<Vec<u8>, Fail> {
    let mut bytes = Vec::from_slice(alloc, b"\x05")?;
    bytes.extend_from_slice(&count.to_be_bytes())?;
    for _ in 0..count {
        bytes.extend_from_slice(b"\x01a")?;
    }
    bytes.extend_from_slice(&[0, 0, 0, 0])?;
    Ok(bytes)
}

/// A mail for so many names is read, and written again.
fn is_read_for(rt: &impl Abort, alloc: Global, count: u16) -> Result<(), Fail> {
    let is = is_read_back(alloc, &mail_for(alloc, count)?, 5)?;
    assert!(rt; is, "{count}");
    Ok(())
}

#[test]
fn mails_for_many_are_read(rt: HostRuntime) -> Result<(), Fail> {
    is_read_for(&rt, rt.alloc(), 0)?;
    is_read_for(&rt, rt.alloc(), 1)?;
    is_read_for(&rt, rt.alloc(), 64)?;
    is_read_for(&rt, rt.alloc(), 65)?;
    is_read_for(&rt, rt.alloc(), 65_535)
}

/// So many names.
fn names(alloc: Global, count: u32) -> Result<Names, Fail> {
    let name = Name::read(b"ann").ok_or("a name")?;
    let mut names = Names::new(alloc);
    for _ in 0..count {
        names.push(name)?;
    }
    Ok(names)
}

/// A mail for so many names fits, or it doesn't.
fn mail_fits(rt: &impl Abort, alloc: Global, count: u32, wanted: bool) -> Result<(), Fail> {
    let names = names(alloc, count)?;
    let Ok(message) = Message::of(Lines::new(alloc)) else {
        return Err("a message")?;
    };
    assert_eq!(rt;
        fits(&OfficeEntry::Accept { names, message }),
        wanted,
        "{count}"
    );
    Ok(())
}

#[test]
fn names_that_do_not_fit(rt: HostRuntime) -> Result<(), Fail> {
    mail_fits(&rt, rt.alloc(), 0, true)?;
    mail_fits(&rt, rt.alloc(), 65_535, true)?;
    mail_fits(&rt, rt.alloc(), 65_536, false)
}
