//! Entries, read.

ghost use Rattle.std.specs.Prelude.{◌≡◌, ◌≤◌, length, IfOk, IsTrue};
ghost use Rattle.pc_base.specs.Machine.{FaultAt};
ghost use Rattle.pc_account_spelling.specs.Spelling.{spelled_entry};
ghost use Rattle.pc_account_spelling.specs.EntryForm.{entry_fits, IsEntryFault};
ghost use Rattle.pc_fields.specs.Format.{repeated, Reads};
ghost use Rattle.pc_account_spelling.specs.EntryFormat.{letter_format, uid_format, flag_format, copy_format, reset_mailbox_format, forget_format, pull_format, password_format, mark_format, parts_format, entry_format};

use pc_account_history::Entry;
use pc_base::{Name, ReadFault, Uids};
use pc_fields::{Cursor, Halt, end, read_message};
use pc_message::{Letters, MOST_LETTERS, Message};
use std::alloc::Global;

/// Reads an entry. `Malformed` names the first field at which no entry goes on.
pub fn read_entry(alloc: Global, bytes: &[u8]) -> Result<Entry, ReadFault>
    ensures found { IfOk result (λ entry. IsTrue (entry_fits entry) × (spelled_entry entry ≡ bytes.now)) }
    ensures fault { FaultAt result (IsEntryFault bytes.now) }
    ensures within { FaultAt result (λ place. place ≤ length bytes.now) }
{
    let mut cursor = Cursor::new(bytes);
    let read = read_whole(alloc, &mut cursor);
    end(read, bytes.len(), cursor.left().len())
}

fn read_whole(alloc: Global, cursor: &mut Cursor) -> Result<Entry, Halt>
    ensures { Reads entry_format cursor.old cursor.new result }
{
    let tag = cursor.u8(1, 15)?;
    read_parts(alloc, tag, cursor)
}

/// Reads what stands behind the tag.
fn read_parts(alloc: Global, tag: u8, cursor: &mut Cursor) -> Result<Entry, Halt>
    ensures { Reads (parts_format tag) cursor.old cursor.new result }
{
    match tag {
        1 => Ok(Entry::MakeMailbox {
            mailbox: cursor.name()?,
        }),
        2 => Ok(Entry::DropMailbox {
            mailbox: cursor.name()?,
        }),
        3 => read_flag(cursor),
        4 => Ok(Entry::Expunge {
            mailbox: cursor.name()?,
        }),
        5 => read_copy(cursor),
        6 => Ok(Entry::MakeClient {
            client: cursor.name()?,
        }),
        7 => Ok(Entry::DropClient {
            client: cursor.name()?,
        }),
        8 => Ok(Entry::ResetClient {
            client: cursor.name()?,
        }),
        9 => read_reset_mailbox(cursor),
        10 => read_forget(alloc, cursor),
        11 => read_pull(alloc, cursor),
        12 => Ok(Entry::Password {
            digest: cursor.digest()?,
        }),
        13 => Ok(Entry::Subscribe {
            board: cursor.name()?,
        }),
        14 => Ok(Entry::Unsubscribe {
            board: cursor.name()?,
        }),
        _ => read_mark(cursor),
    }
}

fn read_flag(cursor: &mut Cursor) -> Result<Entry, Halt>
    ensures { Reads flag_format cursor.old cursor.new result }
{
    let mailbox = cursor.name()?;
    let uid = cursor.u32(0, u32::MAX)?;
    let flag = cursor.u8(0, u8::MAX)?;
    let on = cursor.bool()?;
    Ok(Entry::Flag {
        mailbox,
        uid,
        flag,
        on,
    })
}

fn read_copy(cursor: &mut Cursor) -> Result<Entry, Halt>
    ensures { Reads copy_format cursor.old cursor.new result }
{
    let mailbox = cursor.name()?;
    let uid = cursor.u32(0, u32::MAX)?;
    let target = cursor.name()?;
    Ok(Entry::Copy {
        mailbox,
        uid,
        target,
    })
}

fn read_reset_mailbox(cursor: &mut Cursor) -> Result<Entry, Halt>
    ensures { Reads reset_mailbox_format cursor.old cursor.new result }
{
    let client = cursor.name()?;
    let mailbox = cursor.name()?;
    Ok(Entry::ResetMailbox { client, mailbox })
}

fn read_mark(cursor: &mut Cursor) -> Result<Entry, Halt>
    ensures { Reads mark_format cursor.old cursor.new result }
{
    let board = cursor.name()?;
    let uid = cursor.u32(0, u32::MAX)?;
    Ok(Entry::Mark { board, uid })
}

fn read_forget(alloc: Global, cursor: &mut Cursor) -> Result<Entry, Halt>
    ensures { Reads forget_format cursor.old cursor.new result }
{
    let client = cursor.name()?;
    let mailbox = cursor.name()?;
    let count = cursor.u32(0, u32::MAX)?;
    let uids = read_uids(alloc, cursor, count)?;
    Ok(Entry::Forget {
        client,
        mailbox,
        uids,
    })
}

fn read_uids(alloc: Global, cursor: &mut Cursor, count: u32) -> Result<Uids, Halt>
    ensures { Reads (repeated count uid_format) cursor.old cursor.new result }
{
    let mut uids = Uids::new(alloc);
    for _taken in 0..count {
        let uid = cursor.u32(0, u32::MAX)?;
        uids.push(uid)?;
    }
    Ok(uids)
}

fn read_pull(alloc: Global, cursor: &mut Cursor) -> Result<Entry, Halt>
    ensures { Reads pull_format cursor.old cursor.new result }
{
    let upto = cursor.u64(0, u64::MAX)?;
    let count = cursor.u16(1, MOST_LETTERS as u16)?;
    let letters = read_letters(alloc, cursor, count)?;
    Ok(Entry::Pull { upto, letters })
}

fn read_letters(alloc: Global, cursor: &mut Cursor, count: u16) -> Result<Letters, Halt>
    ensures { Reads (repeated count letter_format) cursor.old cursor.new result }
{
    let mut letters = Letters::new(alloc);
    for _taken in 0..count {
        let (mailbox, message) = read_letter(alloc, cursor)?;
        letters.push((mailbox, message))?;
    }
    Ok(letters)
}

fn read_letter(alloc: Global, cursor: &mut Cursor) -> Result<(Name, Message), Halt>
    ensures { Reads letter_format cursor.old cursor.new result }
{
    let mailbox = cursor.name()?;
    let message = read_message(alloc, cursor, 65_536)?;
    Ok((mailbox, message))
}
