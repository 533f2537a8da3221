//! The mailboxes of a cache.

ghost use Rattle.std.specs.Prelude.{◌≡◌, ℕ, ◌+◌, ◌%◌, ◌^◌, ◌<◌, ◌==◌, ◌++◌, [], ◌∷◌, true, None, map, length, is_some, OnOk, IfOk};
ghost use Rattle.std.specs.List.{filter};
ghost use Rattle.std.specs.Map.{lookup, keys_of, set_value};
ghost use Rattle.pc_tables.specs.Table.{same, is_among};
ghost use Rattle.pc_cache_history.specs.Record.{descriptor_at};
ghost use Rattle.pc_cache_history.specs.Effect.{with_changes};
ghost use Rattle.pc_cache_history.specs.Entry.{uid_of};
ghost use Rattle.pc_cache_history.specs.Allowed.{are_different};
ghost use Rattle.pc_cache_history.specs.Step.{with_value, under};
ghost use Rattle.pc_cache.specs.Mailboxes.{count_in, found_in};

use crate::descriptors::Descriptors;
use crate::name_set::NameSet;
use indexmap::IndexMap;
use pc_base::{Memory, Name, Names};
use pc_message::{Change, Descriptor};
use pc_tables::{replaced, tables};
use std::alloc::Global;
use std::marker::Model;

/// Mailboxes in an order, each with its descriptors. How many descriptors there are in all of them
/// is kept as a number of 64 bits that wraps.
#[derive(Drop)]
pub struct Mailboxes {
    names: Names,
    table: IndexMap<Name, Descriptors>,
    count: u64,
}

impl Model for Mailboxes {
    ghost use Rattle.std.specs.Prelude.{◌≡◌, ◌%◌, ◌^◌};
    ghost use Rattle.std.specs.Map.{keys_of};
    ghost use Rattle.pc_cache.specs.Mailboxes.{Table, count_in};

    ghost Value = { Table };

    ghost view = { λ m. m.table.entries };

    ghost invariant = { λ m. (m.names ≡ keys_of m.table.entries) × (m.count ≡ count_in m.table.entries % 2 ^ 64) };
}

impl Mailboxes {
    /// No mailboxes.
    pub fn new(alloc: Global) -> Mailboxes
        ensures { result ≡ [] }
    {
        Mailboxes {
            names: Names::new(alloc),
            table: IndexMap::new(alloc),
            count: 0,
        }
    }

    /// Their names, in order.
    pub fn names(&self) -> &Names
        ensures { result.now ≡ keys_of self.now }
    {
        &self.names
    }

    /// How many there are.
    pub fn len(&self) -> usize
        ensures { result ≡ length self.now }
    {
        self.table.len()
    }

    /// How many descriptors there are in all of them.
    pub fn count(&self) -> u64
        ensures { count_in self.now < 2 ^ 64 → result ≡ count_in self.now }
    {
        self.count
    }

    /// Whether there is a mailbox of this name.
    pub fn contains(&self, mailbox: &Name) -> bool
        ensures { result ≡ is_some (lookup (same mailbox.now) self.now) }
    {
        self.table.contains_key(mailbox)
    }

    /// The descriptors of a mailbox, by rising uid; none where it isn't there.
    pub fn descriptors(&self, mailbox: &Name) -> &[Descriptor]
        ensures { result.now ≡ found_in mailbox.now self.now }
    {
        match self.table.get(mailbox) {
            Some(descriptors) => descriptors.as_slice(),
            None => &[],
        }
    }

    /// Whether a mailbox has a descriptor with this uid.
    pub fn has(&self, mailbox: &Name, uid: u32) -> bool
        ensures { result ≡ is_some (descriptor_at uid (found_in mailbox.now self.now)) }
    {
        match self.table.get(mailbox) {
            Some(descriptors) => descriptors.has(uid),
            None => false,
        }
    }

    /// Puts a mailbox that isn't there behind the others. After `Err` they aren't used again.
    pub fn put(
        &mut self,
        alloc: Global,
        mailbox: Name,
        descriptors: Descriptors,
    ) -> Result<(), Memory>
        requires { lookup (same mailbox) self.old ≡ None }
        ensures { OnOk result (self.new ≡ self.old ++ (mailbox, descriptors) ∷ []) }
    {
        let more = descriptors.as_slice().len() as u64;
        let Ok(()) = tables::put(&mut self.table, mailbox, descriptors) else {
            return Err(Memory);
        };
        let Ok(()) = self.names.push(mailbox) else {
            *self = Mailboxes::new(alloc);
            return Err(Memory);
        };
        self.count = self.count.wrapping_add(more);
        Ok(())
    }

    /// Takes changes of a mailbox, which comes last where it isn't there. After `Err` they aren't
    /// used again.
    pub fn take(&mut self, alloc: Global, mailbox: &Name, changes: &[Change]) -> Result<(), Memory>
        requires { are_different ◌==◌ (map uid_of changes.now) ≡ true }
        ensures { OnOk result (self.new ≡ with_value mailbox.now (with_changes changes.now (found_in mailbox.now self.old)) self.old) }
    {
        if self.contains(mailbox) {
            return self.take_there(alloc, mailbox, changes);
        }
        let mut descriptors = Descriptors::new(alloc);
        descriptors.take_all(alloc, changes)?;
        self.put(alloc, *mailbox, descriptors)
    }

    /// Takes changes of a mailbox, where it is there. After `Err` they aren't used again.
    fn take_there(
        &mut self,
        alloc: Global,
        mailbox: &Name,
        changes: &[Change],
    ) -> Result<(), Memory>
        requires { are_different ◌==◌ (map uid_of changes.now) ≡ true }
        ensures { OnOk result (self.new ≡ set_value (same mailbox.now) self.old (with_changes changes.now (found_in mailbox.now self.old))) }
    {
        let Some(descriptors) = self.table.get_mut(mailbox) else {
            return Ok(());
        };
        let before = descriptors.as_slice().len() as u64;
        let Ok(()) = descriptors.take_all(alloc, changes) else {
            *self = Mailboxes::new(alloc);
            return Err(Memory);
        };
        let behind = descriptors.as_slice().len() as u64;
        self.count = replaced(self.count, before, behind);
        Ok(())
    }

    /// Keeps the mailboxes of these names, and no other. After `Err` nothing has changed.
    pub fn keep(&mut self, alloc: Global, kept: &[Name]) -> Result<(), Memory>
        ensures { OnOk result (self.new ≡ under kept.now self.old) }
    {
        let set = NameSet::of(alloc, kept)?;
        let names = names_in(alloc, self.names.as_slice(), &set)?;
        keep_in(&mut self.table, &set);
        self.count = count_of(&self.table);
        self.names = names;
        Ok(())
    }
}

/// Those of the names that are in the set.
fn names_in(alloc: Global, names: &[Name], set: &NameSet) -> Result<Names, Memory>
    ensures { IfOk result (λ found. found ≡ filter (λ name. is_among name set.now) names.now) }
{
    let mut found = Names::new(alloc);
    for name in names {
        if set.has(name) {
            found.push(*name)?;
        }
    }
    Ok(found)
}

/// Keeps what stands under the names of the set.
fn keep_in(table: &mut IndexMap<Name, Descriptors>, set: &NameSet)
    ensures { table.new.entries ≡ under set.now table.old.entries }
{
    table.retain(|name, _| set.has(name));
}

/// How many descriptors there are in a table, as a number of 64 bits that wraps.
fn count_of(table: &IndexMap<Name, Descriptors>) -> u64
    ensures { result ≡ count_in table.now.entries % 2 ^ 64 }
{
    let mut count: u64 = 0;
    for (_, descriptors) in table.iter() {
        count = count.wrapping_add(descriptors.as_slice().len() as u64);
    }
    count
}
