//! The number of the next entry, given to an account.

ghost use Rattle.std.specs.Prelude.{◌≡◌};
ghost use Rattle.std.specs.List.{list_all};
ghost use Rattle.pc_account_records.specs.Numbered.{is_born_before, are_before, is_mailbox_before, are_mailboxes_before, suits};

use indexmap::IndexMap;
use pc_account_holdings::{Holdings, Mailboxes};
use pc_base::Name;
use pc_mailbox::{Mailbox, UpdateList};

/// Whether the next entry may have this number: it is past all births and stamps.
pub fn suits(holdings: &Holdings, first: u64) -> bool
    ensures { result ≡ suits holdings.now first }
{
    if first == 0 {
        return false;
    }
    if !are_born_before(holdings.clients(), first) {
        return false;
    }
    if !are_mailboxes_before(holdings.live(), first) {
        return false;
    }
    are_mailboxes_before(holdings.dropped(), first)
}

fn are_born_before(clients: &IndexMap<Name, u64>, first: u64) -> bool
    ensures { result ≡ list_all (is_born_before first) clients.now.entries }
{
    for (_, birth) in clients.iter() {
        if *birth >= first {
            return false;
        }
    }
    true
}

fn are_mailboxes_before(mailboxes: &Mailboxes, first: u64) -> bool
    ensures { result ≡ are_mailboxes_before first mailboxes.now }
{
    for (name, mailbox) in mailboxes.table().iter() {
        if !is_mailbox_before(name, mailbox, first) {
            return false;
        }
    }
    true
}

fn is_mailbox_before(name: &Name, mailbox: &Mailbox, first: u64) -> bool
    ensures { result ≡ is_mailbox_before first (name.now, mailbox.now) }
{
    mailbox
        .lists()
        .iter()
        .all(|entry| are_before(&entry.1, first))
}

fn are_before(list: &UpdateList, first: u64) -> bool
    ensures { result ≡ are_before first list.now }
{
    for (_, stamp) in list.iter() {
        if *stamp >= first {
            return false;
        }
    }
    true
}
