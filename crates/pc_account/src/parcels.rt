//! Messages on their way to mailboxes, and the limits that they would pass.

ghost use Rattle.std.specs.Prelude.{◌≡◌, ◌+◌, ◌*◌, ◌≤◌, ◌<◌, [], ◌∷◌, ◌++◌, length, map, IsTrue};
ghost use Rattle.std.specs.List.{list_all};
ghost use Rattle.pc_base.specs.Name.{is_name};
ghost use Rattle.pc_tables.specs.Table.{total};
ghost use Rattle.pc_account_history.specs.Allowed.{messages};
ghost use Rattle.pc_account_history.specs.Legal.{IsCanonical};
ghost use Rattle.pc_account_holdings.specs.State.{said};
ghost use Rattle.pc_account.specs.Plan.{target_of};
ghost use Rattle.pc_account.specs.Limits.{parcel_of, parcels_to, weight_in, has_uids, has_places, limit_of_parcels};
ghost use Rattle.pc_account.specs.Taking.{parcel_for, letter_fits};

use crate::allowing::is_mailbox;
use crate::limits::limit_of_changes;
use pc_account_history::{MOST_MESSAGES, MOST_UIDS, MOST_WEIGHT};
use pc_account_holdings::Holdings;
use pc_base::{LimitWord, Name};
use pc_message::{MOST_LETTERS, Mail, Message};
use std::marker::Model;

/// At most 64 messages on their way, kept in place: of each the mailbox that it goes to, and its
/// size. Contracts see them as a list.
#[derive(Drop)]
pub struct Parcels {
    count: usize,
    places: [(Name, u32); MOST_LETTERS],
}

impl Model for Parcels {
    ghost use Rattle.std.specs.Prelude.{◌≡◌, ◌≤◌, ℕ, List, length, take};

    ghost Value = { List (List ℕ × ℕ) };

    ghost view = { λ p. take p.count p.places };

    ghost invariant = { λ p. (p.count ≤ 64) × (length p.places ≡ 64) };
}

impl Parcels {
    /// Those of letters that are pulled.
    pub fn of_letters(letters: &[(Name, Message)]) -> Parcels
        requires { length letters.now ≤ 64 }
        ensures { result ≡ map parcel_of letters.now }
    {
        let mut parcels = Parcels::none();
        for letter in letters {
            parcels.push(letter.0, letter.1.size());
        }
        parcels
    }

    /// Those of mails that wait. The letter of each fits its fields.
    pub fn of_mails(holdings: &Holdings, mails: &[Mail]) -> Parcels
        requires { length mails.now ≤ 64 }
        ensures parcels { result ≡ map (parcel_for (said holdings.now)) mails.now }
        ensures fits { IsTrue (list_all (letter_fits (said holdings.now)) mails.now) }
    {
        let mut parcels = Parcels::none();
        for mail in mails {
            parcels.push(target_of(holdings, mail), mail.message.size());
        }
        parcels
    }

    /// The parcels in order.
    pub fn as_slice(&self) -> &[(Name, u32)]
        ensures value { result.now ≡ self.now }
        ensures few { length self.now ≤ 64 }
    {
        let places: &[(Name, u32)] = &self.places;
        &places[..self.count]
    }

    /// The places that aren't used hold nothing of meaning.
    fn none() -> Parcels
        ensures { result ≡ [] }
    {
        Parcels {
            count: 0,
            places: [(Name::inbox(), 0); MOST_LETTERS],
        }
    }

    fn push(&mut self, mailbox: Name, size: u32)
        requires { length self.old < 64 }
        ensures { self.new ≡ self.old ++ (mailbox, size) ∷ [] }
    {
        self.places[self.count] = (mailbox, size);
        self.count += 1;
    }
}

/// The mailbox that a mail goes to: its own, or else the one that can't be dropped.
pub fn target_of(holdings: &Holdings, mail: &Mail) -> Name
    ensures target { result ≡ target_of (said holdings.now) mail.now }
    ensures name { IsTrue (is_name result) }
{
    if is_mailbox(holdings, &mail.mailbox) {
        return mail.mailbox.copy();
    }
    Name::inbox()
}

/// The limit that would be passed first if these parcels, which are at most 64, came.
pub fn limit_of_parcels(holdings: &Holdings, parcels: &[(Name, u32)]) -> Option<LimitWord>
    requires canonical { IsCanonical holdings.now.held holdings.now.next }
    requires few { length parcels.now ≤ 64 }
    ensures { result ≡ limit_of_parcels (said holdings.now) parcels.now }
{
    if !have_uids(holdings, parcels) {
        return Some(LimitWord::Uids);
    }
    if !have_places(holdings, parcels) {
        return Some(LimitWord::Messages);
    }
    if holdings.weight() + weight_of(parcels) > MOST_WEIGHT as u64 {
        return Some(LimitWord::Bytes);
    }
    let growth = parcels.len() as u64 * holdings.clients().len() as u64;
    limit_of_changes(holdings, growth)
}

/// Whether each parcel's mailbox has uids for all that go there.
fn have_uids(holdings: &Holdings, parcels: &[(Name, u32)]) -> bool
    requires canonical { IsCanonical holdings.now.held holdings.now.next }
    requires few { length parcels.now ≤ 64 }
    ensures { result ≡ list_all (λ parcel. has_uids (said holdings.now) parcels.now parcel.0) parcels.now }
{
    parcels
        .iter()
        .all(|parcel| has_uids(holdings, parcels, &parcel.0))
}

fn has_uids(holdings: &Holdings, parcels: &[(Name, u32)], mailbox: &Name) -> bool
    requires canonical { IsCanonical holdings.now.held holdings.now.next }
    requires few { length parcels.now ≤ 64 }
    ensures { result ≡ has_uids (said holdings.now) parcels.now mailbox.now }
{
    highest_of(holdings, mailbox) + count_to(parcels, mailbox) <= MOST_UIDS
}

/// Whether each parcel's mailbox has places for all that go there.
fn have_places(holdings: &Holdings, parcels: &[(Name, u32)]) -> bool
    requires canonical { IsCanonical holdings.now.held holdings.now.next }
    requires few { length parcels.now ≤ 64 }
    ensures { result ≡ list_all (λ parcel. has_places (said holdings.now) parcels.now parcel.0) parcels.now }
{
    parcels
        .iter()
        .all(|parcel| has_places(holdings, parcels, &parcel.0))
}

fn has_places(holdings: &Holdings, parcels: &[(Name, u32)], mailbox: &Name) -> bool
    requires canonical { IsCanonical holdings.now.held holdings.now.next }
    requires few { length parcels.now ≤ 64 }
    ensures { result ≡ has_places (said holdings.now) parcels.now mailbox.now }
{
    (count_of(holdings, mailbox) + count_to(parcels, mailbox)) as usize <= MOST_MESSAGES
}

/// The last uid given under a mailbox name, or 0.
fn highest_of(holdings: &Holdings, mailbox: &Name) -> u32
    ensures highest { result ≡ (said holdings.now).highest mailbox.now }
    ensures bound { result ≤ MOST_UIDS }
{
    if let Some(holder) = holdings.mailbox(mailbox) {
        return holder.highest();
    }
    match holdings.dropped().get(mailbox) {
        Some(holder) => holder.highest(),
        None => 0,
    }
}

/// How many messages live in a mailbox.
fn count_of(holdings: &Holdings, mailbox: &Name) -> u32
    requires { IsCanonical holdings.now.held holdings.now.next }
    ensures count { result ≡ length (messages (said holdings.now) mailbox.now) }
    ensures bound { result ≤ MOST_MESSAGES }
{
    match holdings.mailbox(mailbox) {
        Some(holder) => holder.count(),
        None => 0,
    }
}

/// How many of the parcels go to a mailbox.
fn count_to(parcels: &[(Name, u32)], mailbox: &Name) -> u32
    requires { length parcels.now ≤ 64 }
    ensures count { result ≡ length (parcels_to mailbox.now parcels.now) }
    ensures bound { result ≤ 64 }
{
    let mut count = 0;
    for parcel in parcels {
        if parcel.0 == *mailbox {
            count += 1;
        }
    }
    count
}

/// What the parcels count for.
fn weight_of(parcels: &[(Name, u32)]) -> u64
    requires { length parcels.now ≤ 64 }
    ensures weight { result ≡ total weight_in parcels.now }
    ensures bound { result ≤ 4294967551 * length parcels.now }
{
    let mut weight = 0;
    for parcel in parcels {
        weight += parcel.1 as u64 + 256;
    }
    weight
}
