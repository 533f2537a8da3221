//! What a client takes of the changes that it was shown.

ghost use Rattle.std.specs.Prelude.{◌≡◌, ◌≤◌, ◌==◌, nat_le, false, length, slice_get, ◌<◌, IsTrue, OnOk, IfOk, IfSome};
ghost use Rattle.std.specs.List.{list_all, position, position_or_len};
ghost use Rattle.std.specs.Option.{option_map_or};
ghost use Rattle.pc_base.specs.AskFault.{Tells};
ghost use Rattle.pc_account_history.specs.Legal.{IsCanonical};
ghost use Rattle.pc_account_history.specs.Allowed.{is_mailbox};
ghost use Rattle.pc_account_holdings.specs.State.{said};
ghost use Rattle.pc_fields.specs.Fitting.{is_u32};
ghost use Rattle.pc_account_spelling.specs.EntryForm.{entry_fits};
ghost use Rattle.pc_account.specs.Plan.{planned, taken_uids, all_taken, with_taken, is_taken, inserted};
ghost use Rattle.pc_account.specs.declared.wish.Wish.TheVariants as wish;

use crate::planning::refusal_of_list;
use pc_account_history::{Entry, Listed};
use pc_account_holdings::Holdings;
use pc_base::{AskFault, Memory, Name, Uids};
use pc_mailbox::Mailbox;
use std::alloc::Global;

/// What the wish to forget comes to. The entry fits its fields.
pub fn forget(
    alloc: Global,
    holdings: &Holdings,
    client: &Name,
    mailbox: &Name,
    low: u32,
    high: u32,
    shown: &[Listed],
) -> Result<Option<Entry>, AskFault>
    requires { IsCanonical holdings.now.held holdings.now.next }
    ensures told { Tells (planned (said holdings.now) (wish.Forget client.now mailbox.now low high shown.now)) result }
    ensures fits { IfOk result (λ plan. IfSome plan (λ entry. IsTrue (entry_fits entry))) }
{
    if let Some(refusal) = refusal_of_list(holdings, client, mailbox) {
        return Err(AskFault::Refused(refusal));
    }
    let uids = taken_uids(alloc, holdings, client, mailbox, low, high, shown)?;
    if uids.as_slice().is_empty() {
        return Ok(None);
    }
    Ok(Some(Entry::Forget {
        client: client.copy(),
        mailbox: mailbox.copy(),
        uids,
    }))
}

/// The uids from low to high that the client has listed as they were shown to it, rising.
fn taken_uids(
    alloc: Global,
    holdings: &Holdings,
    client: &Name,
    mailbox: &Name,
    low: u32,
    high: u32,
    shown: &[Listed],
) -> Result<Uids, Memory>
    requires canonical { IsCanonical holdings.now.held holdings.now.next }
    requires lives { IsTrue (is_mailbox (said holdings.now) mailbox.now) }
    ensures uids { IfOk result (λ uids. uids ≡ taken_uids (said holdings.now) client.now mailbox.now low high shown.now) }
    ensures fits { IfOk result (λ uids. IsTrue (list_all is_u32 uids)) }
{
    match holdings.mailbox(mailbox) {
        Some(holder) => taken_from(alloc, holder, client, low, high, shown),
        None => Ok(Uids::new(alloc)),
    }
}

fn taken_from(
    alloc: Global,
    mailbox: &Mailbox,
    client: &Name,
    low: u32,
    high: u32,
    shown: &[Listed],
) -> Result<Uids, Memory>
    ensures uids { IfOk result (λ uids. uids ≡ all_taken client.now mailbox.now low high shown.now) }
    ensures fits { IfOk result (λ uids. IsTrue (list_all is_u32 uids)) }
{
    let mut uids = Vec::new(alloc);
    for listed in shown {
        take_one(&mut uids, mailbox, client, low, high, listed)?;
    }
    uids_of(alloc, &uids)
}

/// These uids as a list.
fn uids_of(alloc: Global, all: &[u32]) -> Result<Uids, Memory>
    ensures uids { IfOk result (λ uids. uids ≡ all.now) }
    ensures fits { IfOk result (λ uids. IsTrue (list_all is_u32 uids)) }
{
    let mut uids = Uids::new(alloc);
    for uid in all {
        uids.push(*uid)?;
    }
    Ok(uids)
}

fn take_one(
    uids: &mut Vec<u32>,
    mailbox: &Mailbox,
    client: &Name,
    low: u32,
    high: u32,
    shown: &Listed,
) -> Result<(), Memory>
    ensures { OnOk result (uids.new.items ≡ with_taken client.now mailbox.now low high uids.old.items shown.now) }
{
    if is_taken(mailbox, client, low, high, shown) {
        return insert_rising(uids, shown.uid);
    }
    Ok(())
}

/// Whether the uid is one from low to high, and is listed for the client as it was shown.
fn is_taken(mailbox: &Mailbox, client: &Name, low: u32, high: u32, shown: &Listed) -> bool
    ensures { result ≡ is_taken client.now mailbox.now low high shown.now }
{
    if shown.uid < low || high < shown.uid {
        return false;
    }
    match mailbox.is_listed(*client, shown.uid) {
        Some(stamp) => stamp == shown.stamp,
        None => false,
    }
}

/// Puts a uid among others, which rise, unless it is there.
fn insert_rising(uids: &mut Vec<u32>, uid: u32) -> Result<(), Memory>
    ensures { OnOk result (uids.new.items ≡ inserted uid uids.old.items) }
{
    let place = place_of(uids, uid);
    if is_at(uids, place, uid) {
        return Ok(());
    }
    uids.insert(place, uid)?;
    Ok(())
}

/// The place of the first uid that isn't below this one, or the end.
fn place_of(uids: &[u32], uid: u32) -> usize
    ensures place { result ≡ position_or_len (λ other. nat_le uid other) uids.now }
    ensures bound { result ≤ length uids.now }
{
    first_from(uids, uid).unwrap_or(uids.len())
}

fn first_from(uids: &[u32], uid: u32) -> Option<usize>
    ensures place { result ≡ position (λ other. nat_le uid other) uids.now }
    ensures bound { IfSome result (λ place. place < length uids.now) }
{
    uids.iter().position(|other| uid <= *other)
}

fn is_at(uids: &[u32], place: usize, uid: u32) -> bool
    ensures { result ≡ option_map_or (λ other. other == uid) (slice_get uids.now place) false }
{
    match uids.get(place) {
        Some(other) => *other == uid,
        None => false,
    }
}
