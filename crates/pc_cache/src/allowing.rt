//! Which entries are allowed.

ghost use Rattle.std.specs.Prelude.{◌≡◌, true, nat_lt};
ghost use Rattle.std.specs.List.{list_all};
ghost use Rattle.pc_cache_history.specs.declared.entry.CacheEntry.TheVariants as entry;
ghost use Rattle.pc_cache_history.specs.Known.{said_by};
ghost use Rattle.pc_cache_history.specs.Allowed.{is_allowed, are_changes, has_flags as fits_flags};
ghost use Rattle.pc_cache_history.specs.Legal.{IsCanonical};

use crate::differing::{names_differ, uids_differ};
use crate::holdings::Holdings;
use crate::room::{has_room, is_short};
use pc_base::Name;
use pc_cache_history::{CacheEntry, LAST_QUEUED, MOST_NAMES, MOST_QUEUED, MOST_TAKEN};
use pc_message::Change;

/// Whether the entry is allowed.
pub fn is_allowed(holdings: &Holdings, entry: &CacheEntry) -> bool
    requires { IsCanonical holdings.now }
    ensures { result ≡ is_allowed (said_by holdings.now) entry.now }
{
    match entry {
        CacheEntry::Begin { .. } => true,
        CacheEntry::Synced => holdings.is_resetting(),
        CacheEntry::Took { mailbox, changes } => may_take(holdings, mailbox, changes.as_slice()),
        CacheEntry::Kept { names } => may_keep(holdings, names.as_slice()),
        CacheEntry::Queue {
            mailbox,
            uid,
            flag,
            ..
        } => may_queue(holdings, mailbox, *uid, *flag),
        CacheEntry::Answered { number } => is_queued(holdings, *number),
    }
}

fn may_take(holdings: &Holdings, mailbox: &Name, changes: &[Change]) -> bool
    requires { IsCanonical holdings.now }
    ensures { result ≡ is_allowed (said_by holdings.now) (entry.Took mailbox.now changes.now) }
{
    if holdings.is_resetting() {
        return false;
    }
    if !are_changes(changes) {
        return false;
    }
    if !is_short(mailbox, changes) {
        return false;
    }
    has_room(holdings, mailbox, changes)
}

/// Whether the changes may be taken at once.
fn are_changes(changes: &[Change]) -> bool
    ensures { result ≡ are_changes changes.now }
{
    changes.len() <= MOST_TAKEN && uids_differ(changes) && have_flags(changes)
}

fn have_flags(changes: &[Change]) -> bool
    ensures { result ≡ list_all fits_flags changes.now }
{
    changes.iter().all(has_flags)
}

fn has_flags(change: &Change) -> bool
    ensures { result ≡ fits_flags change.now }
{
    match change {
        Change::Present(descriptor) => are_sixteen(descriptor.flags),
        Change::Expunged(_) => true,
    }
}

/// There are never more than sixteen flags in sixteen bits.
fn are_sixteen(flags: u16) -> bool
    ensures { result ≡ nat_lt flags 65536 }
{
    true
}

fn may_keep(holdings: &Holdings, names: &[Name]) -> bool
    ensures { result ≡ is_allowed (said_by holdings.now) (entry.Kept names.now) }
{
    !holdings.is_resetting() && names.len() <= MOST_NAMES && names_differ(names)
}

fn may_queue(holdings: &Holdings, mailbox: &Name, uid: u32, flag: u8) -> bool
    ensures { result ≡ is_allowed (said_by holdings.now) (entry.Queue mailbox.now uid flag true) }
{
    holdings.mailboxes().has(mailbox, uid)
        && flag <= 15
        && holdings.queue().len() < MOST_QUEUED
        && holdings.last() < LAST_QUEUED
}

fn is_queued(holdings: &Holdings, number: u64) -> bool
    ensures { result ≡ is_allowed (said_by holdings.now) (entry.Answered number) }
{
    holdings.queue().iter().any(|item| item.number == number)
}
