//! Entries, written.

ghost use Rattle.std.specs.Prelude.{◌≡◌, ◌++◌, map, IsTrue, OnOk};
ghost use Rattle.std.specs.List.{concat};
ghost use Rattle.pc_fields.specs.FieldBytes.{name_field};
ghost use Rattle.pc_office_history.specs.declared.entry.OfficeEntry.TheVariants as entry;
ghost use Rattle.pc_office_spelling.specs.Spelling.{parts_of, names_fields, spelled_entry};
ghost use Rattle.pc_office_spelling.specs.EntryForm.{are_names, entry_fits};

use pc_base::{Bytes, Memory, Name, Names};
use pc_fields::{write_message, write_name, write_u8, write_u16, write_u64};
use pc_message::Message;
use pc_office_history::OfficeEntry;

/// Appends the bytes of an entry. After `Err` nothing is known of what was appended.
pub fn write_entry(entry: &OfficeEntry, out: &mut Bytes) -> Result<(), Memory>
    requires { IsTrue (entry_fits entry.now) }
    ensures { OnOk result (out.new ≡ out.old ++ spelled_entry entry.now) }
{
    write_u8(out, entry.tag())?;
    write_parts(entry, out)
}

/// Appends what stands behind the tag.
fn write_parts(entry: &OfficeEntry, out: &mut Bytes) -> Result<(), Memory>
    requires { IsTrue (entry_fits entry.now) }
    ensures { OnOk result (out.new ≡ out.old ++ concat (parts_of entry.now)) }
{
    match entry {
        OfficeEntry::AddUser { user } => write_name(out, user),
        OfficeEntry::AddBoard { board } => write_name(out, board),
        OfficeEntry::TakeAddress {
            address,
            user,
            mailbox,
        } => write_take(out, address, user, mailbox),
        OfficeEntry::DropAddress { address } => write_name(out, address),
        OfficeEntry::Accept { names, message } => write_accept(out, names, message),
        OfficeEntry::Pulled { user, number } => write_pulled(out, user, *number),
    }
}

fn write_take(out: &mut Bytes, address: &Name, user: &Name, mailbox: &Name) -> Result<(), Memory>
    ensures { OnOk result (out.new ≡ out.old ++ concat (parts_of (entry.TakeAddress address.now user.now mailbox.now))) }
{
    write_name(out, address)?;
    write_name(out, user)?;
    write_name(out, mailbox)
}

fn write_accept(out: &mut Bytes, names: &Names, message: &Message) -> Result<(), Memory>
    requires { IsTrue (entry_fits (entry.Accept names.now message.now)) }
    ensures { OnOk result (out.new ≡ out.old ++ concat (parts_of (entry.Accept names.now message.now))) }
{
    write_names(out, names)?;
    write_message(out, message)
}

/// Appends how many names there are, and the names.
fn write_names(out: &mut Bytes, names: &Names) -> Result<(), Memory>
    requires { IsTrue (are_names names.now) }
    ensures { OnOk result (out.new ≡ out.old ++ concat (names_fields names.now)) }
{
    let names = names.as_slice();
    write_u16(out, names.len() as u16)?;
    write_each(out, names)
}

fn write_each(out: &mut Bytes, names: &[Name]) -> Result<(), Memory>
    ensures { OnOk result (out.new ≡ out.old ++ concat (map name_field names.now)) }
{
    for name in names {
        write_name(out, name)?;
    }
    Ok(())
}

fn write_pulled(out: &mut Bytes, user: &Name, number: u64) -> Result<(), Memory>
    ensures { OnOk result (out.new ≡ out.old ++ concat (parts_of (entry.Pulled user.now number))) }
{
    write_name(out, user)?;
    write_u64(out, number)
}
