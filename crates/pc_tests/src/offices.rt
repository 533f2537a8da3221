//! Stores of the post office: one byte for byte, and its third commit stopped at each device call. The
//! expected answers are worked out by hand.

use super::stores::{after_stop, area_of};
use pc_base::{CommitFault, Lines, Name, Names};
use pc_disk::Choice;
use pc_message::Message;
use pc_office::{Office, OfficeEntry};
use std::alloc::Global;
use std::test::Fail;

/// Area 0 of the store: the gate; `PCMAIL1` and LF; kind, generation, first number and the length of
/// the base; the base of a new office; behind its gate and its length the entry that makes the user ann; that of an
/// empty mail to her; and the closed gate.
const AREA: &[u8] = b"\x01PCMAIL1\x0a\
\x02\x00\x00\x00\x00\x00\x00\x00\x01\x00\x00\x00\x00\x00\x00\x00\x01\x00\x00\x00\x12\
\x00\x00\x00\x00\x00\x00\x00\x00\x00\x00\x00\x00\x00\x00\x00\x00\x00\x00\
\x01\x00\x00\x00\x05\x01\x03ann\
\x01\x00\x00\x00\x0b\x05\x00\x01\x03ann\x00\x00\x00\x00\
\x00";

/// The user ann, and an empty mail to her.
pub fn first_entries(alloc: Global) -> Result<Vec<OfficeEntry>, Fail> {
    let user = Name::read(b"ann").ok_or("a name")?;
    let mut names = Names::new(alloc);
    names.push(user)?;
    let message = Message::of(Lines::new(alloc)).ok().ok_or("a message")?;
    let mut entries = Vec::new(alloc);
    entries.push(OfficeEntry::AddUser { user })?;
    entries.push(OfficeEntry::Accept { names, message })?;
    Ok(entries)
}

/// The entry that makes the board news.
fn news() -> Result<OfficeEntry, Fail> {
    let board = Name::read(b"news").ok_or("a name")?;
    Ok(OfficeEntry::AddBoard { board })
}

#[test]
fn an_office_byte_for_byte(rt: HostRuntime) -> Result<(), Fail> {
    let area = area_of::<Office>(rt.alloc(), first_entries(rt.alloc())?)?;
    assert_eq!(rt; area.as_slice(), AREA);
    Ok(())
}

#[test]
fn an_office_stopped_at_each_call(rt: HostRuntime) -> Result<(), Fail> {
    let rows = [
        (1, Choice::Lose, Err(CommitFault::Device), 2),
        (2, Choice::Keep, Err(CommitFault::Device), 2),
        (3, Choice::Lose, Err(CommitFault::Device), 2),
        (3, Choice::Keep, Err(CommitFault::Device), 3),
        (4, Choice::Keep, Err(CommitFault::Device), 3),
        (5, Choice::Lose, Ok(3), 3),
    ];
    for (k, choice, answer, count) in rows {
        let entries = first_entries(rt.alloc())?;
        let found = after_stop::<Office>(rt.alloc(), entries, news()?, k, choice)?;
        assert_eq!(rt; found, (answer, count), "{k}");
    }
    Ok(())
}
