//! Entries, written.

ghost use Rattle.std.specs.Prelude.{◌≡◌, ◌++◌, ◌∷◌, length, map, IsTrue, OnOk};
ghost use Rattle.std.specs.List.{concat, flat_map};
ghost use Rattle.pc_fields.specs.FieldBytes.{u16_field, u32_field};
ghost use Rattle.pc_account_spelling.specs.Spelling.{letter_fields, parts_of, spelled_entry};
ghost use Rattle.pc_account_spelling.specs.EntryForm.{entry_fits};
ghost use Rattle.pc_account_history.specs.declared.entry.Entry.TheVariants as entry;

use pc_account_history::Entry;
use pc_base::{Bytes, Memory, Name, Uids};
use pc_fields::{write_bool, write_message, write_name, write_u8, write_u16, write_u32, write_u64};
use pc_message::{Letters, Message};

/// Appends the bytes of an entry. After `Err` nothing is known of what was appended.
pub fn write_entry(entry: &Entry, out: &mut Bytes) -> Result<(), Memory>
    requires { IsTrue (entry_fits entry.now) }
    ensures { OnOk result (out.new ≡ out.old ++ spelled_entry entry.now) }
{
    write_u8(out, entry.tag())?;
    write_parts(entry, out)
}

/// Appends what stands behind the tag.
fn write_parts(entry: &Entry, out: &mut Bytes) -> Result<(), Memory>
    requires { IsTrue (entry_fits entry.now) }
    ensures { OnOk result (out.new ≡ out.old ++ concat (parts_of entry.now)) }
{
    match entry {
        Entry::MakeMailbox { mailbox } => write_name(out, mailbox),
        Entry::DropMailbox { mailbox } => write_name(out, mailbox),
        Entry::Flag {
            mailbox,
            uid,
            flag,
            on,
        } => write_flag(out, mailbox, *uid, *flag, *on),
        Entry::Expunge { mailbox } => write_name(out, mailbox),
        Entry::Copy {
            mailbox,
            uid,
            target,
        } => write_copy(out, mailbox, *uid, target),
        Entry::MakeClient { client } => write_name(out, client),
        Entry::DropClient { client } => write_name(out, client),
        Entry::ResetClient { client } => write_name(out, client),
        Entry::ResetMailbox { client, mailbox } => write_names(out, client, mailbox),
        Entry::Forget {
            client,
            mailbox,
            uids,
        } => write_forget(out, client, mailbox, uids),
        Entry::Pull { upto, letters } => write_pull(out, *upto, letters),
        Entry::Password { digest } => out.append(digest),
        Entry::Subscribe { board } => write_name(out, board),
        Entry::Unsubscribe { board } => write_name(out, board),
        Entry::Mark { board, uid } => write_mark(out, board, *uid),
    }
}

fn write_flag(out: &mut Bytes, mailbox: &Name, uid: u32, flag: u8, on: bool) -> Result<(), Memory>
    ensures { OnOk result (out.new ≡ out.old ++ concat (parts_of (entry.Flag mailbox.now uid flag on))) }
{
    write_name(out, mailbox)?;
    write_u32(out, uid)?;
    write_u8(out, flag)?;
    write_bool(out, on)
}

fn write_copy(out: &mut Bytes, mailbox: &Name, uid: u32, target: &Name) -> Result<(), Memory>
    ensures { OnOk result (out.new ≡ out.old ++ concat (parts_of (entry.Copy mailbox.now uid target.now))) }
{
    write_name(out, mailbox)?;
    write_u32(out, uid)?;
    write_name(out, target)
}

fn write_names(out: &mut Bytes, client: &Name, mailbox: &Name) -> Result<(), Memory>
    ensures { OnOk result (out.new ≡ out.old ++ concat (parts_of (entry.ResetMailbox client.now mailbox.now))) }
{
    write_name(out, client)?;
    write_name(out, mailbox)
}

fn write_mark(out: &mut Bytes, board: &Name, uid: u32) -> Result<(), Memory>
    ensures { OnOk result (out.new ≡ out.old ++ concat (parts_of (entry.Mark board.now uid))) }
{
    write_name(out, board)?;
    write_u32(out, uid)
}

fn write_forget(out: &mut Bytes, client: &Name, mailbox: &Name, uids: &Uids) -> Result<(), Memory>
    requires { IsTrue (entry_fits (entry.Forget client.now mailbox.now uids.now)) }
    ensures { OnOk result (out.new ≡ out.old ++ concat (parts_of (entry.Forget client.now mailbox.now uids.now))) }
{
    write_names(out, client, mailbox)?;
    write_u32(out, uids.as_slice().len() as u32)?;
    write_uids(out, uids.as_slice())
}

fn write_uids(out: &mut Bytes, uids: &[u32]) -> Result<(), Memory>
    ensures { OnOk result (out.new ≡ out.old ++ concat (map u32_field uids.now)) }
{
    for uid in uids {
        write_u32(out, *uid)?;
    }
    Ok(())
}

fn write_pull(out: &mut Bytes, upto: u64, letters: &Letters) -> Result<(), Memory>
    requires { IsTrue (entry_fits (entry.Pull upto letters.now)) }
    ensures { OnOk result (out.new ≡ out.old ++ concat (parts_of (entry.Pull upto letters.now))) }
{
    write_u64(out, upto)?;
    write_u16(out, letters.as_slice().len() as u16)?;
    write_letters(out, letters.as_slice())
}

fn write_letters(out: &mut Bytes, letters: &[(Name, Message)]) -> Result<(), Memory>
    ensures { OnOk result (out.new ≡ out.old ++ concat (flat_map letter_fields letters.now)) }
{
    for letter in letters {
        write_letter(out, letter)?;
    }
    Ok(())
}

fn write_letter(out: &mut Bytes, letter: &(Name, Message)) -> Result<(), Memory>
    ensures { OnOk result (out.new ≡ out.old ++ concat (letter_fields letter.now)) }
{
    write_name(out, &letter.0)?;
    write_message(out, &letter.1)
}
