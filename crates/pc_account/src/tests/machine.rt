//! An account as a store sees it.

ghost use Rattle.std.specs.Prelude.{◌<◌, ◌≤◌, ◌^◌};

use super::holds;
use crate::{Account, Entry};
use pc_account_spelling::fits;
use pc_base::{Bytes, Machine, Memory, Name};
use std::alloc::Global;
use std::process::Abort;
use std::test::Fail;

/// A new account whose next entry has this number.
fn begun(alloc: Global, first: u64) -> Result<Account, Fail>
    requires some { 0 < first }
    requires most { first ≤ 2 ^ 63 }
{
    let mut account = <Account as Machine>::empty(alloc)?;
    if !Machine::number_from(&mut account, first) {
        return Err("a number")?;
    }
    Ok(account)
}

/// Makes an entry, and answers whether it may come next.
fn is_entered(account: &mut Account, alloc: Global, entry: &Entry) -> Result<bool, Fail> {
    if !Machine::allows(account, entry) {
        return Ok(false);
    }
    if account.next() > 1_000_000 {
        return Err("fewer entries")?;
    }
    Machine::apply(account, alloc, entry)?;
    Ok(true)
}

/// What a store writes of an entry.
fn written(alloc: Global, entry: &Entry) -> Result<Bytes, Fail> {
    let mut bytes = Bytes::new(alloc);
    if !fits(entry) {
        return Err("an entry that fits")?;
    }
    <Account as Machine>::write_entry(entry, &mut bytes)?;
    Ok(bytes)
}

/// What a store writes of a state.
fn saved<M: Machine>(alloc: Global, machine: &M) -> Result<Bytes, Memory> {
    let mut bytes = Bytes::new(alloc);
    machine.save(&mut bytes)?;
    Ok(bytes)
}

/// What a store writes of a new account.
fn saved_first(alloc: Global) -> Result<Bytes, Fail> {
    let account = begun(alloc, 1)?;
    Ok(saved(alloc, &account)?)
}

/// The entry that makes inbox.
fn inbox_made() -> Result<Entry, Fail> {
    let mailbox = Name::read(b"inbox").ok_or("a name")?;
    Ok(Entry::MakeMailbox { mailbox })
}

/// Whether a store writes these bytes of the entry that makes inbox.
fn is_written(alloc: Global, bytes: &[u8]) -> Result<bool, Fail> {
    let entry = inbox_made()?;
    let written = written(alloc, &entry)?;
    Ok(written.as_slice() == bytes)
}

/// Makes inbox, and answers whether that may come next.
fn is_made(account: &mut Account, alloc: Global) -> Result<bool, Fail> {
    let entry = inbox_made()?;
    is_entered(account, alloc, &entry)
}

/// Looks whether inbox is made once, by the entry before the 8th.
fn makes_inbox(rt: &impl Abort, alloc: Global, account: &mut Account) -> Result<(), Fail> {
    holds(rt, "once", is_made(account, alloc)?);
    holds(rt, "twice", !is_made(account, alloc)?);
    holds(rt, "next", account.next() == 8);
    Ok(())
}

/// The entry that a store reads of these bytes.
fn read(alloc: Global, bytes: &[u8]) -> Result<Entry, Fail> {
    match <Account as Machine>::read_entry(alloc, bytes) {
        Ok(entry) => Ok(entry),
        Err(_) => Err("an entry")?,
    }
}

/// Whether the entry of these bytes has this word.
fn has_word(alloc: Global, bytes: &[u8], word: &[u8]) -> Result<bool, Fail> {
    let entry = read(alloc, bytes)?;
    Ok(entry.word() == word)
}

/// Makes the entry of these bytes, and answers whether it may come next.
fn is_read_and_made(account: &mut Account, alloc: Global, bytes: &[u8]) -> Result<bool, Fail> {
    let entry = read(alloc, bytes)?;
    is_entered(account, alloc, &entry)
}

/// Whether the entry of these bytes may be the first one.
fn may_be_first(alloc: Global, bytes: &[u8]) -> Result<bool, Fail> {
    let mut account = begun(alloc, 1)?;
    is_read_and_made(&mut account, alloc, bytes)
}

#[test]
fn a_new_account_is_fifteen_zeros(rt: HostRuntime) -> Result<(), Fail> {
    let record = saved_first(rt.alloc())?;
    holds(&rt, "the record", record.as_slice() == [0; 15].as_slice());
    Ok(())
}

#[test]
fn a_mailbox_is_made(rt: HostRuntime) -> Result<(), Fail> {
    holds(&rt, "its bytes", is_written(rt.alloc(), b"\x01\x05inbox")?);
    let mut account = begun(rt.alloc(), 7)?;
    makes_inbox(&rt, rt.alloc(), &mut account)
}

#[test]
fn an_entry_is_read_back(rt: HostRuntime) -> Result<(), Fail> {
    let bytes = b"\x02\x04work";
    holds(
        &rt,
        "its word",
        has_word(rt.alloc(), bytes, b"DropMailbox")?,
    );
    holds(&rt, "no such mailbox", !may_be_first(rt.alloc(), bytes)?);
    Ok(())
}
