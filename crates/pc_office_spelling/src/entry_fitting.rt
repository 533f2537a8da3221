//! Whether entries fit their fields.

ghost use Rattle.std.specs.Prelude.{◌≡◌, IsTrue, None};
ghost use Rattle.pc_base.specs.Name.{is_name};
ghost use Rattle.pc_office_history.specs.declared.entry.OfficeEntry.TheVariants as entry;
ghost use Rattle.pc_office_history.specs.Known.{Known};
ghost use Rattle.pc_office_history.specs.Limits.{limit_passed};
ghost use Rattle.pc_office_spelling.specs.EntryForm.{entry_fits};

use pc_base::{Name, Names};
use pc_fields::{fits_message, fits_name, fits_names};
use pc_message::Message;
use pc_office_history::OfficeEntry;

/// Whether the number of the names of an entry fits its field. All else in it does by its type. An
/// entry that passes no limit fits.
pub fn fits(entry: &OfficeEntry) -> bool
    ensures answer { result ≡ entry_fits entry.now }
    ensures within { (known : Known) → limit_passed known entry.now ≡ None → IsTrue result }
{
    match entry {
        OfficeEntry::AddUser { user } => fits_name(user),
        OfficeEntry::AddBoard { board } => fits_name(board),
        OfficeEntry::TakeAddress {
            address,
            user,
            mailbox,
        } => fits_take(address, user, mailbox),
        OfficeEntry::DropAddress { address } => fits_name(address),
        OfficeEntry::Accept { names, message } => fits_accept(names, message),
        OfficeEntry::Pulled { user, number } => fits_pulled(user, *number),
    }
}

fn fits_take(address: &Name, user: &Name, mailbox: &Name) -> bool
    ensures entry { result ≡ entry_fits (entry.TakeAddress address.now user.now mailbox.now) }
    ensures always { IsTrue result }
{
    fits_name(address) && fits_name(user) && fits_name(mailbox)
}

fn fits_accept(names: &Names, message: &Message) -> bool
    ensures entry { result ≡ entry_fits (entry.Accept names.now message.now) }
    ensures within { (known : Known) → limit_passed known (entry.Accept names.now message.now) ≡ None → IsTrue result }
{
    let names = names.as_slice();
    names.len() < 65_536 && fits_names(names) && fits_message(message)
}

fn fits_pulled(user: &Name, number: u64) -> bool
    ensures entry { result ≡ entry_fits (entry.Pulled user.now number) }
    ensures always { IsTrue result }
{
    fits_name(user)
}
