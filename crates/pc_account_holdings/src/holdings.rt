//! What an account holds, and what each entry makes of it.

ghost use Rattle.std.specs.Prelude.{◌≡◌, ◌<◌, ◌^◌, true, [], ◌∷◌, None, suc, length, is_some, unwrap_or, option_copied, IfSome, IsTrue, OnOk, IfOk};
ghost use Rattle.std.specs.List.{IsDistinct};
ghost use Rattle.std.specs.Map.{lookup};
ghost use Rattle.pc_tables.specs.Table.{same, others};
ghost use Rattle.pc_account_history.specs.Record.{kept_at, new_mailbox as new_box};
ghost use Rattle.pc_account_history.specs.Step.{at_all};
ghost use Rattle.pc_account_history.specs.Legal.{IsCanonical};
ghost use Rattle.pc_account_history.specs.Limits.{weight, listed_count};
ghost use Rattle.pc_account_history.specs.declared.entry.Entry.TheVariants as entry;
ghost use Rattle.pc_account_holdings.specs.Mailboxes.{changed_for, HasRoom, AreRoomFor, empty_for};
ghost use Rattle.pc_account_holdings.specs.State.{new_state, said, may_follow, entered, step};

use crate::mailboxes::{ClientChange, Mailboxes};
use indexmap::IndexMap;
use pc_account_history::Entry;
use pc_base::{Memory, Name, Uids};
use pc_mailbox::Mailbox;
use pc_message::{Letters, with_flag};
use pc_tables::tables;
use std::alloc::Global;
use std::marker::Model;

/// The record of an account, and the number of its next entry.
#[derive(Drop)]
pub struct Holdings {
    next: u64,
    pulled: u64,
    digest: Option<[u8; 32]>,
    clients: IndexMap<Name, u64>,
    live: Mailboxes,
    dropped: Mailboxes,
    subscriptions: IndexMap<Name, u32>,
}

impl Model for Holdings {
    ghost use Rattle.pc_account_holdings.specs.State.{State};

    ghost Value = { State };

    ghost view = { λ h. record {
      held = record {
        pulled = h.pulled;
        digest = h.digest;
        clients = h.clients.entries;
        live = h.live;
        dropped = h.dropped;
        subscriptions = h.subscriptions.entries;
      };
      next = h.next;
    } };
}

impl Holdings {
    /// Those of a new account. It takes no memory.
    pub fn empty(alloc: Global) -> Holdings
        ensures { result ≡ new_state }
    {
        Holdings {
            next: 1,
            pulled: 0,
            digest: None,
            clients: IndexMap::new(alloc),
            live: Mailboxes::new(alloc),
            dropped: Mailboxes::new(alloc),
            subscriptions: IndexMap::new(alloc),
        }
    }

    /// Those with these parts. They take no memory.
    pub fn of(
        next: u64,
        pulled: u64,
        digest: Option<[u8; 32]>,
        clients: IndexMap<Name, u64>,
        live: Mailboxes,
        dropped: Mailboxes,
        subscriptions: IndexMap<Name, u32>,
    ) -> Holdings
        ensures held { result.held ≡ record { pulled = pulled; digest = digest; clients = clients.entries; live = live; dropped = dropped; subscriptions = subscriptions.entries } }
        ensures next { result.next ≡ next }
    {
        Holdings {
            next,
            pulled,
            digest,
            clients,
            live,
            dropped,
            subscriptions,
        }
    }

    /// The number of the next entry.
    pub fn next(&self) -> u64
        ensures { result ≡ self.now.next }
    {
        self.next
    }

    /// Gives the next entry this number.
    pub fn set_next(&mut self, next: u64)
        ensures { self.new ≡ record self.old { next = next } }
    {
        self.next = next;
    }

    /// The number of the last mail pulled.
    pub fn pulled(&self) -> u64
        ensures { result ≡ self.now.held.pulled }
    {
        self.pulled
    }

    /// The digest of the password.
    pub fn digest(&self) -> Option<[u8; 32]>
        ensures { result ≡ self.now.held.digest }
    {
        self.digest
    }

    /// The clients with their births, in order of making.
    pub fn clients(&self) -> &IndexMap<Name, u64>
        ensures { result.now.entries ≡ self.now.held.clients }
    {
        &self.clients
    }

    /// The mailboxes that live, in order of making.
    pub fn live(&self) -> &Mailboxes
        ensures { result.now ≡ self.now.held.live }
    {
        &self.live
    }

    /// The mailboxes that don't live, in order of their drops.
    pub fn dropped(&self) -> &Mailboxes
        ensures { result.now ≡ self.now.held.dropped }
    {
        &self.dropped
    }

    /// The subscriptions with their marks, in order of making.
    pub fn subscriptions(&self) -> &IndexMap<Name, u32>
        ensures { result.now.entries ≡ self.now.held.subscriptions }
    {
        &self.subscriptions
    }

    /// The birth of a client.
    pub fn birth(&self, client: &Name) -> Option<u64>
        ensures { result ≡ lookup (same client.now) self.now.held.clients }
    {
        self.clients.get(client).copied()
    }

    /// Whether a mailbox lives.
    pub fn is_live(&self, mailbox: &Name) -> bool
        ensures { result ≡ is_some (lookup (same mailbox.now) self.now.held.live) }
    {
        self.live.get(mailbox).is_some()
    }

    /// A mailbox that lives.
    pub fn mailbox(&self, mailbox: &Name) -> Option<&Mailbox>
        ensures { option_copied result ≡ lookup (same mailbox.now) self.now.held.live }
    {
        self.live.get(mailbox)
    }

    /// The last uid that was marked on a board that is subscribed to, or 0.
    pub fn mark(&self, board: &Name) -> Option<u32>
        ensures { result ≡ lookup (same board.now) self.now.held.subscriptions }
    {
        self.subscriptions.get(board).copied()
    }

    /// What all messages count for.
    pub fn weight(&self) -> u64
        requires { IsCanonical self.now.held self.now.next }
        ensures { result ≡ weight (said self.now) }
    {
        self.live.weight()
    }

    /// How many changes are on all lists.
    pub fn changes(&self) -> u64
        requires { IsCanonical self.now.held self.now.next }
        ensures { result ≡ listed_count (said self.now) }
    {
        self.live.changes().wrapping_add(self.dropped.changes())
    }

    /// Makes the step of an entry that may come next. After `Err` the holdings aren't used again.
    pub fn step(&mut self, alloc: Global, entry: &Entry) -> Result<(), Memory>
        requires canonical { IsCanonical self.old.held self.old.next }
        requires allowed { IsTrue (may_follow (said self.old) entry.now) }
        requires next { self.old.next < 2 ^ 63 }
        ensures { OnOk result (self.new ≡ step self.old entry.now) }
    {
        self.enter(alloc, entry)?;
        self.next += 1;
        Ok(())
    }

    /// Makes what an entry says. It isn't counted yet.
    fn enter(&mut self, alloc: Global, entry: &Entry) -> Result<(), Memory>
        requires canonical { IsCanonical self.old.held self.old.next }
        requires allowed { IsTrue (may_follow (said self.old) entry.now) }
        ensures { OnOk result (self.new ≡ entered self.old entry.now) }
    {
        match entry {
            Entry::MakeMailbox { mailbox } => self.make_mailbox(alloc, mailbox),
            Entry::DropMailbox { mailbox } => self.drop_mailbox(alloc, mailbox),
            Entry::Flag {
                mailbox,
                uid,
                flag,
                on,
            } => self.set_flag(mailbox, *uid, *flag, *on),
            Entry::Expunge { mailbox } => self.expunge(alloc, mailbox),
            Entry::Copy {
                mailbox,
                uid,
                target,
            } => self.copy(alloc, mailbox, *uid, target),
            Entry::MakeClient { client } => self.make_client(alloc, client),
            Entry::DropClient { client } => self.drop_client(alloc, client),
            Entry::ResetClient { client } => self.reset_client(alloc, client),
            Entry::ResetMailbox { client, mailbox } => self.reset_mailbox(alloc, client, mailbox),
            Entry::Forget {
                client,
                mailbox,
                uids,
            } => {
                self.forget(client, mailbox, uids);
                Ok(())
            }
            Entry::Pull { upto, letters } => self.pull(alloc, *upto, letters),
            Entry::Password { digest } => {
                self.digest = Some(*digest);
                Ok(())
            }
            Entry::Subscribe { board } => tables::put(&mut self.subscriptions, *board, 0),
            Entry::Unsubscribe { board } => {
                tables::take(&mut self.subscriptions, board);
                Ok(())
            }
            Entry::Mark { board, uid } => {
                tables::set(&mut self.subscriptions, board, *uid);
                Ok(())
            }
        }
    }

    fn make_mailbox(&mut self, alloc: Global, name: &Name) -> Result<(), Memory>
        requires { lookup (same name.now) self.old.held.live ≡ None }
        ensures { OnOk result (self.new ≡ entered self.old (entry.MakeMailbox name.now)) }
    {
        let mailbox = self.dropped_or_new(alloc, name)?;
        self.live.put(*name, mailbox)
    }

    /// The mailbox of this name, taken from those that were dropped, or a new one.
    fn dropped_or_new(&mut self, alloc: Global, name: &Name) -> Result<Mailbox, Memory>
        ensures mailbox { let found = lookup (same name.now) self.old.held.dropped in
            IfOk result (λ mailbox. mailbox ≡ unwrap_or found (new_box self.old.held.clients)) }
        ensures others { OnOk result (self.new ≡ record self.old { held = record self.old.held { dropped = others name.now self.old.held.dropped } }) }
    {
        match self.dropped.take(name) {
            Some(mailbox) => Ok(mailbox),
            None => new_mailbox(alloc, &self.clients),
        }
    }

    fn drop_mailbox(&mut self, alloc: Global, name: &Name) -> Result<(), Memory>
        requires live { is_some (lookup (same name.now) self.old.held.live) ≡ true }
        requires dropped { lookup (same name.now) self.old.held.dropped ≡ None }
        ensures { OnOk result (self.new ≡ entered self.old (entry.DropMailbox name.now)) }
    {
        let Some(mut mailbox) = self.live.take(name) else {
            return Ok(());
        };
        mailbox.drop_all(alloc, self.next)?;
        self.dropped.put(*name, mailbox)
    }

    fn set_flag(&mut self, name: &Name, uid: u32, flag: u8, on: bool) -> Result<(), Memory>
        requires lives { IfSome (lookup (same name.now) self.old.held.live) (λ box. is_some (kept_at uid box.messages) ≡ true) }
        requires flag { flag < 16 }
        ensures { OnOk result (self.new ≡ entered self.old (entry.Flag name.now uid flag on)) }
    {
        self.live.flag(self.next, name, uid, flag, on)
    }

    fn expunge(&mut self, alloc: Global, name: &Name) -> Result<(), Memory>
        ensures { OnOk result (self.new ≡ entered self.old (entry.Expunge name.now)) }
    {
        self.live.expunge(alloc, self.next, name)
    }

    fn copy(&mut self, alloc: Global, name: &Name, uid: u32, target: &Name) -> Result<(), Memory>
        requires live { is_some (lookup (same name.now) self.old.held.live) ≡ true }
        requires room { IfSome (lookup (same target.now) self.old.held.live) HasRoom }
        ensures { OnOk result (self.new ≡ entered self.old (entry.Copy name.now uid target.now)) }
    {
        let Some(mailbox) = self.live.get(name) else {
            return Ok(());
        };
        let Some(flags) = mailbox.live(uid) else {
            return Ok(());
        };
        let Some(message) = mailbox.body(uid) else {
            return Ok(());
        };
        let message = message.copy(alloc)?;
        let flags = with_flag(flags, 0, false);
        self.live.add(self.next, target, message, flags)
    }

    fn make_client(&mut self, alloc: Global, client: &Name) -> Result<(), Memory>
        requires { lookup (same client.now) self.old.held.clients ≡ None }
        ensures { OnOk result (self.new ≡ entered self.old (entry.MakeClient client.now)) }
    {
        tables::put(&mut self.clients, *client, self.next)?;
        self.change_lists(alloc, client, ClientChange::Made)
    }

    fn drop_client(&mut self, alloc: Global, client: &Name) -> Result<(), Memory>
        ensures { OnOk result (self.new ≡ entered self.old (entry.DropClient client.now)) }
    {
        tables::take(&mut self.clients, client);
        self.change_lists(alloc, client, ClientChange::Dropped)
    }

    fn reset_client(&mut self, alloc: Global, client: &Name) -> Result<(), Memory>
        ensures { OnOk result (self.new ≡ entered self.old (entry.ResetClient client.now)) }
    {
        self.change_lists(alloc, client, ClientChange::Reset)
    }

    /// Changes the lists of a client in all mailboxes.
    fn change_lists(
        &mut self,
        alloc: Global,
        client: &Name,
        change: ClientChange,
    ) -> Result<(), Memory>
        ensures { OnOk result (self.new ≡ record self.old { held = at_all self.old.held.clients (changed_for change self.old.next client.now) self.old.held }) }
    {
        let at = self.next;
        self.live.change_for_client(alloc, at, *client, change)?;
        self.dropped.change_for_client(alloc, at, *client, change)
    }

    fn reset_mailbox(&mut self, alloc: Global, client: &Name, name: &Name) -> Result<(), Memory>
        ensures { OnOk result (self.new ≡ entered self.old (entry.ResetMailbox client.now name.now)) }
    {
        self.live.reset(alloc, self.next, *client, name)
    }

    fn forget(&mut self, client: &Name, name: &Name, uids: &Uids)
        ensures { self.new ≡ entered self.old (entry.Forget client.now name.now uids.now) }
    {
        self.live.forget(*client, name, uids);
    }

    fn pull(&mut self, alloc: Global, upto: u64, letters: &Letters) -> Result<(), Memory>
        requires { AreRoomFor self.old.next letters.now self.old.held.live }
        ensures { OnOk result (self.new ≡ entered self.old (entry.Pull upto letters.now)) }
    {
        self.live.deliver(alloc, self.next, letters)?;
        self.pulled = upto;
        Ok(())
    }
}

/// A mailbox without messages, with an empty list for each client.
fn new_mailbox(alloc: Global, clients: &IndexMap<Name, u64>) -> Result<Mailbox, Memory>
    ensures { IfOk result (λ mailbox. mailbox ≡ new_box clients.now.entries) }
{
    let names = clients.keys();
    mailbox_for(alloc, names.as_slice())
}

/// A mailbox without messages, with an empty list for each of these clients, which differ.
fn mailbox_for(alloc: Global, clients: &[Name]) -> Result<Mailbox, Memory>
    requires { IsDistinct same clients.now }
    ensures { IfOk result (λ mailbox. mailbox ≡ empty_for clients.now) }
{
    let mut mailbox = Mailbox::empty(alloc)?;
    for client in clients {
        mailbox.add_client(alloc, 0, *client)?;
    }
    Ok(mailbox)
}
