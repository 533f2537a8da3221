//! How much changes take.

ghost use Rattle.std.specs.Prelude.{◌≡◌, ◌≤◌, length, nat_le, [], IsTrue};
ghost use Rattle.std.specs.List.{filter};
ghost use Rattle.std.specs.Map.{keys_of};
ghost use Rattle.pc_cache_history.specs.declared.entry.CacheEntry.TheVariants as entry;
ghost use Rattle.pc_cache_history.specs.Effect.{mailboxes_after};
ghost use Rattle.pc_cache_history.specs.Known.{said_by, after_entry};
ghost use Rattle.pc_cache_history.specs.Allowed.{are_changes, change_bytes, is_short as fits_in, has_room};
ghost use Rattle.pc_cache_history.specs.Legal.{IsCanonical};
ghost use Rattle.pc_cache_history.specs.Laws.{takes_away, brings};
ghost use Rattle.pc_cache.specs.Mailboxes.{found_in};

use crate::holdings::Holdings;
use crate::mailboxes::Mailboxes;
use pc_base::{Line, Name};
use pc_cache_history::{MOST_CACHED, MOST_DESCRIPTORS, MOST_TAKEN, MOST_TAKEN_BYTES};
use pc_message::Change;

/// Whether the changes are written in few enough bytes.
pub fn is_short(mailbox: &Name, changes: &[Change]) -> bool
    requires { length changes.now ≤ MOST_TAKEN }
    ensures { result ≡ fits_in mailbox.now changes.now }
{
    let mut bytes = 4 + length_of_name(mailbox);
    for change in changes {
        bytes += bytes_of(change);
    }
    bytes <= MOST_TAKEN_BYTES as u64
}

/// In how many bytes a change is written.
fn bytes_of(change: &Change) -> u64
    ensures value { result ≡ change_bytes change.now }
    ensures bound { result ≤ 4023 }
{
    match change {
        Change::Present(descriptor) => {
            23 + length_of(&descriptor.date)
                + length_of(&descriptor.from)
                + length_of(&descriptor.to)
                + length_of(&descriptor.subject)
        }
        Change::Expunged(_) => 5,
    }
}

/// How many bytes a line has.
fn length_of(line: &Line) -> u64
    ensures value { result ≡ length line.now }
    ensures bound { result ≤ 1000 }
{
    line.bytes().len() as u64
}

/// How many bytes a name has.
fn length_of_name(name: &Name) -> u64
    ensures value { result ≡ length name.now }
    ensures bound { result ≤ 32 }
{
    name.bytes().len() as u64
}

/// Whether there are not too many mailboxes and descriptors once the changes are taken.
pub fn has_room(holdings: &Holdings, mailbox: &Name, changes: &[Change]) -> bool
    requires canonical { IsCanonical holdings.now }
    requires changes { IsTrue (are_changes changes.now) }
    ensures { result ≡ has_room (after_entry (said_by holdings.now) (entry.Took mailbox.now changes.now)) }
{
    let mailboxes = holdings.mailboxes();
    if !has_place(mailboxes, mailbox) {
        return false;
    }
    let more = count_of_new(mailboxes, mailbox, changes);
    let fewer = count_of_gone(mailboxes, mailbox, changes);
    mailboxes.count() + more <= MOST_DESCRIPTORS as u64 + fewer
}

/// Whether the mailbox is there, or can be one more.
fn has_place(mailboxes: &Mailboxes, mailbox: &Name) -> bool
    requires { length mailboxes.now ≤ MOST_CACHED }
    ensures { result ≡ nat_le (length (mailboxes_after (entry.Took mailbox.now []) (keys_of mailboxes.now))) MOST_CACHED }
{
    mailboxes.contains(mailbox) || mailboxes.len() < MOST_CACHED
}

/// How many of the changes show a message that the mailbox hasn't.
fn count_of_new(mailboxes: &Mailboxes, mailbox: &Name, changes: &[Change]) -> u64
    ensures value { result ≡ length (filter (brings (found_in mailbox.now mailboxes.now)) changes.now) }
    ensures bound { result ≤ length changes.now }
{
    changes
        .iter()
        .filter(|change| is_new(mailboxes, mailbox, change))
        .count() as u64
}

/// How many of the changes take away a message that the mailbox has.
fn count_of_gone(mailboxes: &Mailboxes, mailbox: &Name, changes: &[Change]) -> u64
    ensures value { result ≡ length (filter (takes_away (found_in mailbox.now mailboxes.now)) changes.now) }
    ensures bound { result ≤ length changes.now }
{
    changes
        .iter()
        .filter(|change| is_gone(mailboxes, mailbox, change))
        .count() as u64
}

/// Whether the change shows a message that the mailbox hasn't.
fn is_new(mailboxes: &Mailboxes, mailbox: &Name, change: &Change) -> bool
    ensures { result ≡ brings (found_in mailbox.now mailboxes.now) change.now }
{
    match change {
        Change::Present(descriptor) => !mailboxes.has(mailbox, descriptor.uid),
        Change::Expunged(_) => false,
    }
}

/// Whether the change takes away a message that the mailbox has.
fn is_gone(mailboxes: &Mailboxes, mailbox: &Name, change: &Change) -> bool
    ensures { result ≡ takes_away (found_in mailbox.now mailboxes.now) change.now }
{
    match change {
        Change::Present(_) => false,
        Change::Expunged(uid) => mailboxes.has(mailbox, *uid),
    }
}
