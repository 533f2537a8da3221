//! Which of the mails that wait are taken.

ghost use Rattle.std.specs.Prelude.{◌≡◌, ◌≤◌, length, map, IsTrue, IfOk, IfSome};
ghost use Rattle.pc_base.specs.AskFault.{Tells};
ghost use Rattle.pc_account_history.specs.Legal.{IsCanonical};
ghost use Rattle.pc_account_holdings.specs.State.{said};
ghost use Rattle.pc_account_spelling.specs.EntryForm.{entry_fits};
ghost use Rattle.pc_account.specs.Plan.{planned, IsWish};
ghost use Rattle.pc_account.specs.Taking.{letter_of, bytes_of_parcel, bytes_of_parcels, have_mailboxes, can_come, front_count};
ghost use Rattle.pc_account.specs.declared.wish.Wish.TheVariants as wish;

use crate::allowing::is_mailbox;
use crate::parcels::{Parcels, limit_of_parcels, target_of};
use pc_account_history::Entry;
use pc_account_holdings::Holdings;
use pc_base::{AskFault, Memory, Name, Room};
use pc_message::{Letters, Mail};
use std::alloc::Global;

/// What the wish to take mails comes to. Which of them are taken is tried by their sizes
/// alone. The entry fits its fields.
pub fn take(
    alloc: Global,
    holdings: &Holdings,
    mails: &[Mail],
    room: Room,
) -> Result<Option<Entry>, AskFault>
    requires canonical { IsCanonical holdings.now.held holdings.now.next }
    requires wish { IsWish (said holdings.now) (wish.Take mails.now room) }
    ensures told { Tells (planned (said holdings.now) (wish.Take mails.now room)) result }
    ensures fits { IfOk result (λ plan. IfSome plan (λ entry. IsTrue (entry_fits entry))) }
{
    let parcels = Parcels::of_mails(holdings, mails);
    let count = longest_front(holdings, parcels.as_slice(), room);
    if count == 0 {
        return Ok(None);
    }
    let letters = letters_of(alloc, holdings, &mails[..count])?;
    Ok(Some(Entry::Pull {
        upto: mails[count - 1].number,
        letters,
    }))
}

/// The message of each mail with the mailbox that it goes to.
fn letters_of(alloc: Global, holdings: &Holdings, mails: &[Mail]) -> Result<Letters, Memory>
    ensures { IfOk result (λ letters. letters ≡ map (letter_of (said holdings.now)) mails.now) }
{
    let mut letters = Letters::new(alloc);
    for mail in mails {
        letters.push((target_of(holdings, mail), mail.message.copy(alloc)?))?;
    }
    Ok(letters)
}

/// How many parcels the longest front has that can be pulled.
fn longest_front(holdings: &Holdings, parcels: &[(Name, u32)], room: Room) -> usize
    requires canonical { IsCanonical holdings.now.held holdings.now.next }
    requires few { length parcels.now ≤ 64 }
    ensures count { result ≡ front_count (said holdings.now) room (length parcels.now) parcels.now }
    ensures bound { result ≤ length parcels.now }
{
    let mut count = parcels.len();
    while count > 0 {
        if can_come(holdings, &parcels[..count], room) {
            return count;
        }
        count -= 1;
    }
    0
}

/// Whether these parcels can be pulled: their mailboxes live, and there is room for them in the
/// account and its journal.
fn can_come(holdings: &Holdings, parcels: &[(Name, u32)], room: Room) -> bool
    requires canonical { IsCanonical holdings.now.held holdings.now.next }
    requires few { length parcels.now ≤ 64 }
    ensures { result ≡ can_come (said holdings.now) room parcels.now }
{
    have_mailboxes(holdings, parcels)
        && limit_of_parcels(holdings, parcels).is_none()
        && room.entries > 0
        && bytes_of(parcels) <= room.bytes as u64
}

/// Whether the mailbox of each parcel lives.
fn have_mailboxes(holdings: &Holdings, parcels: &[(Name, u32)]) -> bool
    ensures { result ≡ have_mailboxes (said holdings.now) parcels.now }
{
    parcels.iter().all(|parcel| is_mailbox(holdings, &parcel.0))
}

/// The bytes of a pull of these parcels in a journal: 11, and those of each letter.
fn bytes_of(parcels: &[(Name, u32)]) -> u64
    requires { length parcels.now ≤ 64 }
    ensures { result ≡ bytes_of_parcels parcels.now }
{
    let mut bytes = 11;
    for parcel in parcels {
        bytes += bytes_of_parcel(parcel);
    }
    bytes
}

/// The bytes of a letter: those of its name and its message, and 5 more.
fn bytes_of_parcel(parcel: &(Name, u32)) -> u64
    ensures bytes { result ≡ bytes_of_parcel parcel.now }
    ensures bound { result ≤ 4294967332 }
{
    5 + length_of(&parcel.0) + parcel.1 as u64
}

fn length_of(name: &Name) -> u64
    ensures length { result ≡ length name.now }
    ensures bound { result ≤ 32 }
{
    name.bytes().len() as u64
}
