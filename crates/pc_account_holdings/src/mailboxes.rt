//! Mailboxes under their names.

ghost use Rattle.std.specs.Prelude.{◌≡◌, suc, ◌<◌, ◌^◌, ◌++◌, true, [], ◌∷◌, None, length, is_some, option_copied, IfSome, OnOk, OnErr};
ghost use Rattle.std.specs.Map.{lookup};
ghost use Rattle.pc_tables.specs.Table.{same, others, map_values};
ghost use Rattle.pc_account_history.specs.Record.{kept_at};
ghost use Rattle.pc_account_history.specs.Step.{with_flag_set, expunged, reset_for, taken_by};
ghost use Rattle.pc_account_holdings.specs.Mailboxes.{Table, weight_held, listed_held, changed_at, front_changed, changed_for, HasRoom, added, delivered, AreRoomFor};

use crate::counts::Counts;
use indexmap::IndexMap;
use pc_base::{Memory, Name, Uids};
use pc_mailbox::Mailbox;
use pc_message::{Letters, Message};
use pc_tables::tables;
use std::alloc::Global;
use std::marker::Model;

/// Mailboxes in an order, each under its name. What is counted over them is kept with each change.
#[derive(Drop)]
pub struct Mailboxes {
    table: IndexMap<Name, Mailbox>,
    counts: Counts,
}

impl Model for Mailboxes {
    ghost use Rattle.pc_account_holdings.specs.Mailboxes.{Table, AreCounted};

    ghost Value = { Table };

    ghost view = { λ m. m.table.entries };

    ghost invariant = { λ m. AreCounted m.counts.weight m.counts.changes m.table.entries };
}

/// What an entry makes of the lists of a client.
#[derive(Clone, Copy)]
pub enum ClientChange {
    /// They begin.
    Made,
    /// They end.
    Dropped,
    /// All that lives is put on them.
    Reset,
}

impl Mailboxes {
    /// No mailboxes.
    pub fn new(alloc: Global) -> Mailboxes
        ensures { result ≡ [] }
    {
        Mailboxes {
            table: IndexMap::new(alloc),
            counts: Counts::none(),
        }
    }

    /// The mailboxes with their names, in order.
    pub fn table(&self) -> &IndexMap<Name, Mailbox>
        ensures { result.now.entries ≡ self.now }
    {
        &self.table
    }

    /// How many there are.
    pub fn count(&self) -> usize
        ensures { result ≡ length self.now }
    {
        self.table.len()
    }

    /// The mailbox of this name.
    pub fn get(&self, name: &Name) -> Option<&Mailbox>
        ensures { option_copied result ≡ lookup (same name.now) self.now }
    {
        self.table.get(name)
    }

    /// What all messages count for, each its size and 256 bytes. It wraps at 64 bits.
    pub fn weight(&self) -> u64
        ensures { weight_held self.now < 2 ^ 64 → result ≡ weight_held self.now }
    {
        self.counts.weight
    }

    /// How many changes are on all lists. It wraps at 64 bits.
    pub fn changes(&self) -> u64
        ensures { listed_held self.now < 2 ^ 64 → result ≡ listed_held self.now }
    {
        self.counts.changes
    }

    /// Puts a mailbox that isn't there behind the others.
    pub fn put(&mut self, name: Name, mailbox: Mailbox) -> Result<(), Memory>
        requires { lookup (same name) self.old ≡ None }
        ensures { OnOk result (self.new ≡ self.old ++ (name, mailbox) ∷ []) }
    {
        let count = Counts::of(&mailbox);
        tables::put(&mut self.table, name, mailbox)?;
        self.counts.replace(Counts::none(), count);
        Ok(())
    }

    /// Takes a mailbox out. The others keep their order.
    pub fn take(&mut self, name: &Name) -> Option<Mailbox>
        ensures mailbox { result ≡ lookup (same name.now) self.old }
        ensures others { self.new ≡ others name.now self.old }
    {
        let mailbox = tables::take(&mut self.table, name)?;
        self.counts.replace(Counts::of(&mailbox), Counts::none());
        Some(mailbox)
    }

    /// Puts a message into a mailbox, where it is there.
    pub fn add(&mut self, at: u64, name: &Name, message: Message, flags: u16) -> Result<(), Memory>
        requires { IfSome (lookup (same name.now) self.old) HasRoom }
        ensures { OnOk result (self.new ≡ changed_at name.now (added at flags message) self.old) }
    {
        let Some(mailbox) = self.table.get_mut(name) else {
            return Ok(());
        };
        let before = Counts::of(mailbox);
        mailbox.put(at, message, flags)?;
        self.counts.replace(before, Counts::of(mailbox));
        Ok(())
    }

    /// Puts letters into their mailboxes, one after the other.
    pub fn deliver(&mut self, alloc: Global, at: u64, letters: &Letters) -> Result<(), Memory>
        requires { AreRoomFor at letters.now self.old }
        ensures { OnOk result (self.new ≡ delivered at letters.now self.old) }
    {
        for letter in letters.as_slice() {
            self.add(at, &letter.0, letter.1.copy(alloc)?, 0)?;
        }
        Ok(())
    }

    /// Sets a flag of a message that lives.
    pub fn flag(&mut self, at: u64, name: &Name, uid: u32, flag: u8, on: bool) -> Result<(), Memory>
        requires lives { IfSome (lookup (same name.now) self.old) (λ box. is_some (kept_at uid box.messages) ≡ true) }
        requires flag { flag < 16 }
        ensures { OnOk result (self.new ≡ changed_at name.now (with_flag_set at uid flag on) self.old) }
    {
        let Some(mailbox) = self.table.get_mut(name) else {
            return Ok(());
        };
        let before = Counts::of(mailbox);
        mailbox.flag(at, uid, flag, on)?;
        self.counts.replace(before, Counts::of(mailbox));
        Ok(())
    }

    /// Takes the messages whose flag 0 is on out of a mailbox.
    pub fn expunge(&mut self, alloc: Global, at: u64, name: &Name) -> Result<(), Memory>
        ensures { OnOk result (self.new ≡ changed_at name.now (expunged at) self.old) }
    {
        let Some(mailbox) = self.table.get_mut(name) else {
            return Ok(());
        };
        let before = Counts::of(mailbox);
        mailbox.expunge(alloc, at)?;
        self.counts.replace(before, Counts::of(mailbox));
        Ok(())
    }

    /// Puts all that lives in a mailbox on the list of a client.
    pub fn reset(&mut self, alloc: Global, at: u64, client: Name, name: &Name) -> Result<(), Memory>
        ensures { OnOk result (self.new ≡ changed_at name.now (reset_for at client) self.old) }
    {
        let Some(mailbox) = self.table.get_mut(name) else {
            return Ok(());
        };
        let before = Counts::of(mailbox);
        mailbox.touch_all(alloc, at, client)?;
        self.counts.replace(before, Counts::of(mailbox));
        Ok(())
    }

    /// Takes uids off the list of a client in a mailbox.
    pub fn forget(&mut self, client: Name, name: &Name, uids: &Uids)
        ensures { self.new ≡ changed_at name.now (taken_by client uids.now) self.old }
    {
        let Some(mailbox) = self.table.get_mut(name) else {
            return;
        };
        let before = Counts::of(mailbox);
        mailbox.forget(client, uids);
        self.counts.replace(before, Counts::of(mailbox));
    }

    /// Changes the list of a client in each mailbox.
    pub fn change_for_client(
        &mut self,
        alloc: Global,
        at: u64,
        client: Name,
        change: ClientChange,
    ) -> Result<(), Memory>
        ensures { OnOk result (self.new ≡ map_values (changed_for change at client) self.old) }
    {
        for index in 0..self.table.len() {
            self.change_one(alloc, index, at, client, change)?;
        }
        Ok(())
    }

    /// Changes the list of a client in the mailbox at this place.
    fn change_one(
        &mut self,
        alloc: Global,
        index: usize,
        at: u64,
        client: Name,
        change: ClientChange,
    ) -> Result<(), Memory>
        requires { index < length self.old }
        ensures changed { let f = changed_for change at client in
            OnOk result ((all : Table) → self.old ≡ front_changed f index all → self.new ≡ front_changed f (suc index) all) }
        ensures count { OnOk result (length self.new ≡ length self.old) }
    {
        let Some(mailbox) = self.table.get_index_mut(index) else {
            return Ok(());
        };
        let before = Counts::of(mailbox);
        change_lists(alloc, mailbox, at, client, change)?;
        self.counts.replace(before, Counts::of(mailbox));
        Ok(())
    }
}

/// Changes the list of a client. After `Err` nothing has changed.
fn change_lists(
    alloc: Global,
    mailbox: &mut Mailbox,
    at: u64,
    client: Name,
    change: ClientChange,
) -> Result<(), Memory>
    ensures ok { OnOk result (mailbox.new ≡ changed_for change at client mailbox.old) }
    ensures err { OnErr result (mailbox.new ≡ mailbox.old) }
{
    match change {
        ClientChange::Made => mailbox.add_client(alloc, at, client),
        ClientChange::Dropped => {
            mailbox.remove_client(client);
            Ok(())
        }
        ClientChange::Reset => mailbox.touch_all(alloc, at, client),
    }
}
