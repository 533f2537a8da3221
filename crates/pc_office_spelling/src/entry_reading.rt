//! Entries, read.

ghost use Rattle.std.specs.Prelude.{◌≡◌, ◌≤◌, length, IfOk, IsTrue};
ghost use Rattle.pc_base.specs.Machine.{FaultAt};
ghost use Rattle.pc_fields.specs.Format.{repeated, Reads};
ghost use Rattle.pc_office_spelling.specs.Spelling.{spelled_entry};
ghost use Rattle.pc_office_spelling.specs.EntryForm.{entry_fits, IsEntryFault};
ghost use Rattle.pc_office_spelling.specs.EntryFormat.{name_format, names_format, take_format, accept_format, pulled_format, parts_format, entry_format};

use pc_base::{Names, ReadFault};
use pc_fields::{Cursor, Halt, end, read_message};
use pc_office_history::OfficeEntry;
use std::alloc::Global;

/// Reads an entry. `Malformed` names the first field at which no entry goes on.
pub fn read_entry(alloc: Global, bytes: &[u8]) -> Result<OfficeEntry, ReadFault>
    ensures found { IfOk result (λ entry. IsTrue (entry_fits entry) × (spelled_entry entry ≡ bytes.now)) }
    ensures fault { FaultAt result (IsEntryFault bytes.now) }
    ensures within { FaultAt result (λ place. place ≤ length bytes.now) }
{
    let mut cursor = Cursor::new(bytes);
    let read = read_whole(alloc, &mut cursor);
    end(read, bytes.len(), cursor.left().len())
}

fn read_whole(alloc: Global, cursor: &mut Cursor) -> Result<OfficeEntry, Halt>
    ensures { Reads entry_format cursor.old cursor.new result }
{
    let tag = cursor.u8(1, 6)?;
    read_parts(alloc, tag, cursor)
}

/// Reads what stands behind the tag.
fn read_parts(alloc: Global, tag: u8, cursor: &mut Cursor) -> Result<OfficeEntry, Halt>
    ensures { Reads (parts_format tag) cursor.old cursor.new result }
{
    match tag {
        1 => Ok(OfficeEntry::AddUser {
            user: cursor.name()?,
        }),
        2 => Ok(OfficeEntry::AddBoard {
            board: cursor.name()?,
        }),
        3 => read_take(cursor),
        4 => Ok(OfficeEntry::DropAddress {
            address: cursor.name()?,
        }),
        5 => read_accept(alloc, cursor),
        _ => read_pulled(cursor),
    }
}

fn read_take(cursor: &mut Cursor) -> Result<OfficeEntry, Halt>
    ensures { Reads take_format cursor.old cursor.new result }
{
    let address = cursor.name()?;
    let user = cursor.name()?;
    let mailbox = cursor.name()?;
    Ok(OfficeEntry::TakeAddress {
        address,
        user,
        mailbox,
    })
}

fn read_accept(alloc: Global, cursor: &mut Cursor) -> Result<OfficeEntry, Halt>
    ensures { Reads accept_format cursor.old cursor.new result }
{
    let names = read_names(alloc, cursor)?;
    let message = read_message(alloc, cursor, 65_536)?;
    Ok(OfficeEntry::Accept { names, message })
}

fn read_names(alloc: Global, cursor: &mut Cursor) -> Result<Names, Halt>
    ensures { Reads names_format cursor.old cursor.new result }
{
    let count = cursor.u16(0, u16::MAX)?;
    read_each(alloc, cursor, count)
}

fn read_each(alloc: Global, cursor: &mut Cursor, count: u16) -> Result<Names, Halt>
    ensures { Reads (repeated count name_format) cursor.old cursor.new result }
{
    let mut names = Names::new(alloc);
    for _taken in 0..count {
        let name = cursor.name()?;
        names.push(name)?;
    }
    Ok(names)
}

fn read_pulled(cursor: &mut Cursor) -> Result<OfficeEntry, Halt>
    ensures { Reads pulled_format cursor.old cursor.new result }
{
    let user = cursor.name()?;
    let number = cursor.u64(0, u64::MAX)?;
    Ok(OfficeEntry::Pulled { user, number })
}
