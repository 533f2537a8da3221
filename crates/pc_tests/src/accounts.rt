//! The account of ann: its first two entries, and the store that holds them.

use pc_account::Entry;
use pc_base::Name;
use std::alloc::Global;
use std::test::Fail;

/// The digest of `ann` and `sesame`, by another program.
const SESAME: [u8; 32] = [
    0xc9, 0x40, 0x3a, 0x3b, 0x84, 0x00, 0x81, 0x8d, 0x87, 0xdf, 0xc4, 0x75, 0x58, 0xba, 0xcd, 0xbb,
    0x69, 0x6f, 0x4e, 0x16, 0xa5, 0x90, 0x74, 0x4e, 0x03, 0x90, 0xc1, 0x11, 0x33, 0x69, 0xd2, 0x30,
];

/// Area 0 of the store: the gate; `PCMAIL1` and LF; kind, generation, first number and the length of
/// the base; the base of a new account; the entry of the password behind its gate and its length; that of
/// the mailbox `inbox`; and the closed gate.
pub const AREA: &[u8] = b"\x01PCMAIL1\x0a\
\x01\x00\x00\x00\x00\x00\x00\x00\x01\x00\x00\x00\x00\x00\x00\x00\x01\x00\x00\x00\x0f\
\x00\x00\x00\x00\x00\x00\x00\x00\x00\x00\x00\x00\x00\x00\x00\
\x01\x00\x00\x00\x21\x0c\
\xc9\x40\x3a\x3b\x84\x00\x81\x8d\x87\xdf\xc4\x75\x58\xba\xcd\xbb\
\x69\x6f\x4e\x16\xa5\x90\x74\x4e\x03\x90\xc1\x11\x33\x69\xd2\x30\
\x01\x00\x00\x00\x07\x01\x05inbox\
\x00";

/// The entry that makes a mailbox.
pub fn make(mailbox: &[u8]) -> Result<Entry, Fail> {
    let mailbox = Name::read(mailbox).ok_or("a name")?;
    Ok(Entry::MakeMailbox { mailbox })
}

/// The password, and the mailbox `inbox`.
pub fn first_entries(alloc: Global) -> Result<Vec<Entry>, Fail> {
    let mut entries = Vec::new(alloc);
    entries.push(Entry::Password { digest: SESAME })?;
    entries.push(make(b"inbox")?)?;
    Ok(entries)
}
