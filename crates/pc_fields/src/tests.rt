//! Fields that were written out by hand, and bytes that are none.

ghost use Rattle.std.specs.Prelude.{◌≤◌};

use super::*;
use pc_base::{Bytes, Line, Lines, Name, ReadFault};
use pc_message::Message;
use std::alloc::Global;
use std::process::Abort;
use std::test::Fail;

/// These bytes were wanted.
fn same(rt: &impl Abort, found: &[u8], wanted: &[u8]) {
    assert_eq!(rt; found, wanted);
}

/// Numbers, on and off, and a name, as they are written.
const FIELDS: &[u8] =
    b"\x07\x01\x02\x01\x02\x03\x04\x01\x02\x03\x04\x05\x06\x07\x08\x01\x00\x03ann";

/// Two lines as a message is written.
const MESSAGE: &[u8] = b"\x00\x00\x00\x02\x00\x07To: ann\x00\x00";

#[test]
fn fields_are_written(rt: HostRuntime) -> Result<(), Fail> {
    let mut out = Bytes::new(rt.alloc());
    write_u8(&mut out, 7)?;
    write_u16(&mut out, 0x0102)?;
    write_u32(&mut out, 0x0102_0304)?;
    write_u64(&mut out, 0x0102_0304_0506_0708)?;
    write_bool(&mut out, true)?;
    write_bool(&mut out, false)?;
    write_name(&mut out, &Name::read(b"ann").ok_or("a name")?)?;
    same(&rt, out.as_slice(), FIELDS);
    Ok(())
}

#[test]
fn messages_are_written(rt: HostRuntime) -> Result<(), Fail> {
    let mut lines = Lines::new(rt.alloc());
    lines.push(Line::copy_of(rt.alloc(), b"To: ann")?)?;
    lines.push(Line::copy_of(rt.alloc(), b"")?)?;
    let Ok(message) = Message::of(lines) else {
        return Err("a message")?;
    };
    let mut out = Bytes::new(rt.alloc());
    write_message(&mut out, &message)?;
    same(&rt, out.as_slice(), MESSAGE);
    Ok(())
}

/// What was read of these bytes, and how many are left.
fn are(
    rt: &impl Abort,
    bytes: &[u8],
    read: Option<u64>,
    left: &[u8],
    wanted: Option<u64>,
    count: usize,
) {
    assert_eq!(rt; read, wanted, "{bytes:?}");
    assert_eq!(rt; left.len(), count, "left of {bytes:?}");
}

fn reads_u8(rt: &impl Abort, bytes: &[u8], wanted: Option<u64>, left: usize) {
    let mut cursor = Cursor::new(bytes);
    let read = match cursor.u8(1, 15) {
        Ok(number) => Some(u64::from(number)),
        Err(_) => None,
    };
    are(rt, bytes, read, cursor.left(), wanted, left);
}

fn reads_u16(rt: &impl Abort, bytes: &[u8], wanted: Option<u64>, left: usize) {
    let mut cursor = Cursor::new(bytes);
    let read = match cursor.u16(1, 0x0102) {
        Ok(number) => Some(u64::from(number)),
        Err(_) => None,
    };
    are(rt, bytes, read, cursor.left(), wanted, left);
}

fn reads_u32(rt: &impl Abort, bytes: &[u8], wanted: Option<u64>, left: usize) {
    let mut cursor = Cursor::new(bytes);
    let read = match cursor.u32(1, 0x0102_0304) {
        Ok(number) => Some(u64::from(number)),
        Err(_) => None,
    };
    are(rt, bytes, read, cursor.left(), wanted, left);
}

fn reads_u64(rt: &impl Abort, bytes: &[u8], wanted: Option<u64>, left: usize) {
    let mut cursor = Cursor::new(bytes);
    let read = match cursor.u64(1, 0x0102_0304_0506_0708) {
        Ok(number) => Some(number),
        Err(_) => None,
    };
    are(rt, bytes, read, cursor.left(), wanted, left);
}

fn reads_bool(rt: &impl Abort, bytes: &[u8], wanted: Option<u64>, left: usize) {
    let mut cursor = Cursor::new(bytes);
    let read = match cursor.bool() {
        Ok(on) => Some(u64::from(on)),
        Err(_) => None,
    };
    are(rt, bytes, read, cursor.left(), wanted, left);
}

#[test]
fn numbers_are_read(rt: HostRuntime) {
    reads_u8(&rt, b"\x0f\x01", Some(15), 1);
    reads_u8(&rt, b"\x10\x01", None, 2);
    reads_u8(&rt, b"\x00\x01", None, 2);
    reads_u8(&rt, b"", None, 0);
    reads_u16(&rt, b"\x01\x02\x03", Some(258), 1);
    reads_u16(&rt, b"\x01\x03\x03", None, 3);
    reads_u16(&rt, b"\x01", None, 1);
    reads_u32(&rt, b"\x01\x02\x03\x04\x05", Some(16_909_060), 1);
    reads_u32(&rt, b"\x00\x00\x00\x00\x05", None, 5);
    reads_u32(&rt, b"\x01\x02\x03", None, 3);
    reads_u64(
        &rt,
        b"\x01\x02\x03\x04\x05\x06\x07\x08",
        Some(72_623_859_790_382_856),
        0,
    );
    reads_u64(&rt, b"\x01\x02\x03\x04\x05\x06\x07\x09", None, 8);
    reads_u64(&rt, b"\x01\x02\x03\x04\x05\x06\x07", None, 7);
    reads_bool(&rt, b"\x01\x00", Some(1), 1);
    reads_bool(&rt, b"\x00\x01", Some(0), 1);
    reads_bool(&rt, b"\x02", None, 1);
    reads_bool(&rt, b"", None, 0);
}

/// These bytes begin with a name of so many bytes, and so many are left.
fn reads_name(rt: &impl Abort, bytes: &[u8], wanted: Option<u64>, left: usize) {
    let mut cursor = Cursor::new(bytes);
    let read = match cursor.name() {
        Ok(name) => Some(name.bytes().len() as u64),
        Err(_) => None,
    };
    are(rt, bytes, read, cursor.left(), wanted, left);
}

/// The same for the name `ann` alone.
fn reads_ann(rt: &impl Abort, bytes: &[u8], wanted: Option<u64>, left: usize) -> Result<(), Fail> {
    let ann = Name::read(b"ann").ok_or("a name")?;
    let mut cursor = Cursor::new(bytes);
    let read = match read_same_name(&mut cursor, &ann) {
        Ok(name) => Some(name.bytes().len() as u64),
        Err(_) => None,
    };
    are(rt, bytes, read, cursor.left(), wanted, left);
    Ok(())
}

#[test]
fn names_are_read(rt: HostRuntime) -> Result<(), Fail> {
    reads_name(&rt, b"\x03ann\x03", Some(3), 1);
    reads_name(&rt, b"\x03an", None, 3);
    reads_name(&rt, b"\x03Ann", None, 4);
    reads_name(&rt, b"\x00", None, 1);
    reads_name(&rt, b"", None, 0);
    reads_ann(&rt, b"\x03ann\x03", Some(3), 1)?;
    reads_ann(&rt, b"\x03bob", None, 4)?;
    reads_ann(&rt, b"\x02an", None, 3)
}

/// These bytes begin with a digest, and so many are left.
fn reads_digest(rt: &impl Abort, bytes: &[u8], wanted: Option<u64>, left: usize) {
    let mut cursor = Cursor::new(bytes);
    let read = match cursor.digest() {
        Ok(digest) => Some(u64::from(digest[31])),
        Err(_) => None,
    };
    are(rt, bytes, read, cursor.left(), wanted, left);
}

#[test]
fn digests_are_read(rt: HostRuntime) {
    reads_digest(&rt, b"0123456789abcdef0123456789abcdeF!", Some(70), 1);
    reads_digest(&rt, b"0123456789abcdef0123456789abcde", None, 31);
}

/// These bytes begin with a line of at most 7 bytes, of so many, and so many are left.
fn reads_line(rt: &impl Abort, alloc: Global, bytes: &[u8], wanted: Option<u64>, left: usize) {
    let mut cursor = Cursor::new(bytes);
    let read = match cursor.line(alloc, 7) {
        Ok(line) => Some(line.bytes().len() as u64),
        Err(_) => None,
    };
    are(rt, bytes, read, cursor.left(), wanted, left);
}

#[test]
fn lines_are_read(rt: HostRuntime) {
    reads_line(&rt, rt.alloc(), b"\x00\x07To: ann\x00", Some(7), 1);
    reads_line(&rt, rt.alloc(), b"\x00\x00", Some(0), 0);
    reads_line(&rt, rt.alloc(), b"\x00\x08To: anna", None, 10);
    reads_line(&rt, rt.alloc(), b"\x00\x03a\nb", None, 5);
    reads_line(&rt, rt.alloc(), b"\x00\x03ab", None, 4);
    reads_line(&rt, rt.alloc(), b"\x00", None, 1);
}

/// These bytes begin with a message of at most this size, of this size, and so many are left.
fn reads_message(
    rt: &impl Abort,
    alloc: Global,
    bytes: &[u8],
    room: u32,
    wanted: Option<u64>,
    left: usize,
)
    requires { room ≤ 65536 }
{
    let mut cursor = Cursor::new(bytes);
    let read = match read_message(alloc, &mut cursor, room) {
        Ok(message) => Some(message.size() as u64),
        Err(_) => None,
    };
    are(rt, bytes, read, cursor.left(), wanted, left);
}

#[test]
fn messages_are_read(rt: HostRuntime) {
    reads_message(&rt, rt.alloc(), MESSAGE, 65_536, Some(11), 0);
    reads_message(&rt, rt.alloc(), MESSAGE, 11, Some(11), 0);
    reads_message(&rt, rt.alloc(), MESSAGE, 10, None, 11);
    reads_message(&rt, rt.alloc(), MESSAGE, 3, None, 15);
    reads_message(&rt, rt.alloc(), b"\x00\x00\x00\x00", 0, Some(0), 0);
    reads_message(&rt, rt.alloc(), b"\x00\x00\x00\x01\x00", 2, None, 1);
}

/// So many bytes were there, so many are left, and this is the fault.
fn ends(rt: &impl Abort, read: Result<u64, Halt>, left: usize, wanted: Result<u64, ReadFault>)
    requires { left ≤ 12 }
{
    let found = end(read, 12, left);
    assert_eq!(rt; found, wanted, "{left} left");
}

#[test]
fn reading_ends(rt: HostRuntime) {
    ends(&rt, Ok(7), 0, Ok(7));
    ends(&rt, Ok(7), 1, Err(ReadFault::Malformed { place: 11 }));
    ends(&rt, Ok(7), 12, Err(ReadFault::Malformed { place: 0 }));
    ends(
        &rt,
        Err(Halt::NoField),
        0,
        Err(ReadFault::Malformed { place: 12 }),
    );
    ends(
        &rt,
        Err(Halt::NoField),
        5,
        Err(ReadFault::Malformed { place: 7 }),
    );
    ends(&rt, Err(Halt::Memory), 5, Err(ReadFault::Memory));
}

/// A name and a message fit.
#[test]
fn names_and_messages_fit(rt: HostRuntime) -> Result<(), Fail> {
    let name = Name::read(b"abcdefghijklmnopqrstuvwxyz012345").ok_or("a name")?;
    let Ok(message) = Message::of(Lines::new(rt.alloc())) else {
        return Err("a message")?;
    };
    let fit = fits_name(&name) && fits_names(&[name]) && fits_message(&message);
    assert!(rt; fit);
    Ok(())
}
