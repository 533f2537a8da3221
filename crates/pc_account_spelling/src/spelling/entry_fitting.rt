//! Whether entries fit their fields.

ghost use Rattle.std.specs.Prelude.{◌≡◌, true, length, IsTrue};
ghost use Rattle.std.specs.List.{list_all};
ghost use Rattle.pc_account_history.specs.declared.entry.Entry.TheVariants as entry;
ghost use Rattle.pc_account_history.specs.Known.{Known};
ghost use Rattle.pc_account_history.specs.Allowed.{is_allowed};
ghost use Rattle.pc_fields.specs.Fitting.{is_u32};
ghost use Rattle.pc_account_spelling.specs.EntryForm.{is_letter, entry_fits};

use pc_account_history::Entry;
use pc_base::{Name, Uids};
use pc_fields::{fits_message, fits_name};
use pc_message::{Letters, MOST_LETTERS, Message};

/// Whether the counts of an entry fit their fields. All else in it does by its type. An entry that
/// is allowed fits.
pub fn fits(entry: &Entry) -> bool
    ensures answer { result ≡ entry_fits entry.now }
    ensures allowed { (known : Known) → is_allowed known entry.now ≡ true → IsTrue result }
{
    match entry {
        Entry::MakeMailbox { mailbox } => fits_name(mailbox),
        Entry::DropMailbox { mailbox } => fits_name(mailbox),
        Entry::Flag {
            mailbox,
            uid,
            flag,
            on,
        } => fits_flag(mailbox, *uid, *flag, *on),
        Entry::Expunge { mailbox } => fits_name(mailbox),
        Entry::Copy {
            mailbox,
            uid,
            target,
        } => fits_copy(mailbox, *uid, target),
        Entry::MakeClient { client } => fits_name(client),
        Entry::DropClient { client } => fits_name(client),
        Entry::ResetClient { client } => fits_name(client),
        Entry::ResetMailbox { client, mailbox } => fits_names(client, mailbox),
        Entry::Forget {
            client,
            mailbox,
            uids,
        } => fits_forget(client, mailbox, uids),
        Entry::Pull { upto, letters } => fits_pull(*upto, letters),
        Entry::Password { digest } => fits_digest(digest),
        Entry::Subscribe { board } => fits_name(board),
        Entry::Unsubscribe { board } => fits_name(board),
        Entry::Mark { board, uid } => fits_mark(board, *uid),
    }
}

fn fits_names(client: &Name, mailbox: &Name) -> bool
    ensures entry { result ≡ entry_fits (entry.ResetMailbox client.now mailbox.now) }
    ensures always { IsTrue result }
{
    fits_name(client) && fits_name(mailbox)
}

fn fits_flag(mailbox: &Name, uid: u32, flag: u8, on: bool) -> bool
    ensures entry { result ≡ entry_fits (entry.Flag mailbox.now uid flag on) }
    ensures always { IsTrue result }
{
    fits_name(mailbox)
}

fn fits_copy(mailbox: &Name, uid: u32, target: &Name) -> bool
    ensures entry { result ≡ entry_fits (entry.Copy mailbox.now uid target.now) }
    ensures always { IsTrue result }
{
    fits_name(mailbox) && fits_name(target)
}

fn fits_mark(board: &Name, uid: u32) -> bool
    ensures entry { result ≡ entry_fits (entry.Mark board.now uid) }
    ensures always { IsTrue result }
{
    fits_name(board)
}

fn fits_digest(digest: &[u8; 32]) -> bool
    ensures entry { result ≡ entry_fits (entry.Password digest.now) }
    ensures always { IsTrue result }
{
    digest.len() == 32
}

/// The number of uids fits four bytes, as it does where they rise.
fn fits_forget(client: &Name, mailbox: &Name, uids: &Uids) -> bool
    ensures entry { result ≡ entry_fits (entry.Forget client.now mailbox.now uids.now) }
    ensures allowed { (known : Known) → is_allowed known (entry.Forget client.now mailbox.now uids.now) ≡ true → IsTrue result }
{
    fits_names(client, mailbox) && fits_uids(uids.as_slice())
}

fn fits_uids(uids: &[u32]) -> bool
    ensures counted { result ≡ is_u32 (length uids.now) }
    ensures each { list_all is_u32 uids.now ≡ true }
{
    uids.len() <= u32::MAX as usize
}

fn fits_pull(upto: u64, letters: &Letters) -> bool
    ensures entry { result ≡ entry_fits (entry.Pull upto letters.now) }
    ensures allowed { (known : Known) → is_allowed known (entry.Pull upto letters.now) ≡ true → IsTrue result }
{
    let letters = letters.as_slice();
    !letters.is_empty() && letters.len() <= MOST_LETTERS && fits_letters(letters)
}

fn fits_letters(letters: &[(Name, Message)]) -> bool
    ensures letters { result ≡ list_all is_letter letters.now }
    ensures always { IsTrue result }
{
    letters.iter().all(fits_letter)
}

fn fits_letter(letter: &(Name, Message)) -> bool
    ensures letter { result ≡ is_letter letter.now }
    ensures always { IsTrue result }
{
    fits_name(&letter.0) && fits_message(&letter.1)
}
