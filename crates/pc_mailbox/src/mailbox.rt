//! A mailbox. What stands under its name in the record of an account is its value.

ghost use Rattle.std.specs.Prelude.{◌≡◌, ◌<◌, ◌≤◌, suc, true, false, [], ◌∷◌, map, length, take, unwrap_or, is_some, option_map, option_copied, OnOk, OnErr, IfOk, IsOk};
ghost use Rattle.std.specs.List.{list_any};
ghost use Rattle.pc_account_history.specs.Record.{kept_at, list_of, stamp_at};
ghost use Rattle.pc_account_history.specs.Step.{with_message, with_flag_set, expunged, emptied, with_client, without_client, reset_for, taken_by};
ghost use Rattle.pc_mailbox.specs.UpdateList.{takers_of, listed_in, all_list};
ghost use Rattle.pc_mailbox.specs.Growth.{unlisted_by_all, unlisted_for};
ghost use Rattle.pc_account_history.specs.Allowed.{messages};
ghost use Rattle.pc_account_history.specs.Legal.{AreMessages};
ghost use Rattle.pc_account_history.specs.Answers.{first_changes};
ghost use Rattle.pc_mailbox.specs.Mailbox.{empty_mailbox, kept_as, weight_of_all, is_deleted, deleted, described, flags_at, message_at};
ghost use Rattle.pc_mailbox.specs.Histories.{InEachHistory, descriptors_between, message_in, flags_in, takers_in};

use crate::shown::Shown;
use crate::update_list::UpdateList;
use crate::{growth, messages, update_lists};
use pc_account_history::{Kept, MOST_MESSAGES, MOST_UIDS};
use pc_base::{Memory, Name, Uids};
use pc_message::{Changes, Message, is_on, with_flag};
use std::alloc::Global;
use std::marker::Model;

/// The most clients that can have lists, so that they are counted in 32 bits.
const MOST_LISTS: usize = 4_294_967_295;

/// The messages that live under a mailbox name, the last uid given, and each client's update list.
/// The number of the entry that changes it is passed as `at`; it is past all earlier ones, but for
/// one `add` or `add_client` after the other. After `Err` a mailbox is as it was.
#[derive(Drop)]
pub struct Mailbox {
    highest: u32,
    weight: u32,
    messages: Vec<Kept>,
    lists: Vec<(Name, UpdateList)>,
}

impl Model for Mailbox {
    ghost use Rattle.std.specs.Prelude.{◌≤◌, length};
    ghost use Rattle.pc_account_history.specs.Record.{MailboxRecord};

    ghost Value = { MailboxRecord };

    ghost use Rattle.pc_mailbox.specs.Mailbox.{IsMailbox};
    ghost use Rattle.pc_mailbox.specs.declared.mailbox.TheConstants.{MOST_LISTS};

    ghost view = { λ mailbox. record { highest = mailbox.highest; messages = mailbox.messages.items; lists = mailbox.lists.items } };

    ghost invariant = { λ mailbox. IsMailbox mailbox.highest mailbox.weight mailbox.messages.items × (length mailbox.lists.items ≤ MOST_LISTS) };
}

impl Mailbox {
    /// A mailbox without messages and clients.
    pub fn empty(alloc: Global) -> Result<Mailbox, Memory>
        ensures { IfOk result (λ mailbox. mailbox ≡ empty_mailbox) }
    {
        Ok(Mailbox {
            highest: 0,
            weight: 0,
            messages: Vec::new(alloc),
            lists: Vec::new(alloc),
        })
    }

    /// A mailbox with these messages, of given uids which rise, and these lists.
    pub fn of(highest: u32, messages: Vec<Kept>, lists: Vec<(Name, UpdateList)>) -> Mailbox
        requires messages { AreMessages highest messages.items }
        requires uids { highest ≤ MOST_UIDS }
        requires few { length messages.items ≤ MOST_MESSAGES }
        requires lists { length lists.items ≤ MOST_LISTS }
        ensures { result ≡ record { highest = highest; messages = messages.items; lists = lists.items } }
    {
        let weight = messages::weight_of(&messages);
        Mailbox {
            highest,
            weight,
            messages,
            lists,
        }
    }

    /// Puts a copy of a message in under the next uid, which is answered.
    pub fn add(
        &mut self,
        alloc: Global,
        at: u64,
        message: &Message,
        flags: u16,
    ) -> Result<u32, Memory>
        requires uids { self.old.highest < MOST_UIDS }
        requires room { length self.old.messages < MOST_MESSAGES }
        ensures mailbox { let kept = kept_as (suc self.old.highest) flags message.now in
            OnOk result (self.new ≡ with_message at kept self.old) }
        ensures err { OnErr result (self.new ≡ self.old) }
        ensures uid { IfOk result (λ uid. uid ≡ suc self.old.highest) }
    {
        let copy = message.copy(alloc)?;
        self.put(at, copy, flags)
    }

    /// Puts a message in under the next uid, which is answered.
    pub fn put(&mut self, at: u64, message: Message, flags: u16) -> Result<u32, Memory>
        requires uids { self.old.highest < MOST_UIDS }
        requires room { length self.old.messages < MOST_MESSAGES }
        ensures mailbox { let kept = kept_as (suc self.old.highest) flags message in
            OnOk result (self.new ≡ with_message at kept self.old) }
        ensures err { OnErr result (self.new ≡ self.old) }
        ensures uid { IfOk result (λ uid. uid ≡ suc self.old.highest) }
    {
        let uid = self.highest + 1;
        let weight = message.weight();
        self.messages.reserve(1)?;
        update_lists::touch_for_all(&mut self.lists, at, &[uid])?;
        self.weight += weight;
        self.messages.push(Kept {
            uid,
            flags,
            message,
        })?;
        self.highest = uid;
        Ok(uid)
    }

    /// Sets a flag of a message that lives. No memory is taken where each client has the uid listed.
    pub fn flag(&mut self, at: u64, uid: u32, flag: u8, on: bool) -> Result<(), Memory>
        requires lives { is_some (kept_at uid self.old.messages) ≡ true }
        requires flag { flag < 16 }
        ensures mailbox { OnOk result (self.new ≡ with_flag_set at uid flag on self.old) }
        ensures err { OnErr result (self.new ≡ self.old) }
        ensures spare { all_list (uid ∷ []) self.old.lists ≡ true → IsOk result }
    {
        let changed = [uid];
        update_lists::touch_for_all(&mut self.lists, at, &changed)?;
        messages::set_flag(&mut self.messages, uid, flag, on);
        Ok(())
    }

    /// Takes away the messages whose flag 0 is on, and answers how many.
    pub fn expunge(&mut self, alloc: Global, at: u64) -> Result<u32, Memory>
        ensures mailbox { OnOk result (self.new ≡ expunged at self.old) }
        ensures err { OnErr result (self.new ≡ self.old) }
        ensures count { IfOk result (λ count. count ≡ length (deleted self.old.messages)) }
    {
        let gone = messages::uids_of_deleted(alloc, &self.messages)?;
        update_lists::touch_for_all(&mut self.lists, at, &gone)?;
        messages::drop_deleted(&mut self.messages);
        self.weight = messages::weight_of(&self.messages);
        Ok(gone.len() as u32)
    }

    /// Takes away all messages.
    pub fn drop_all(&mut self, alloc: Global, at: u64) -> Result<(), Memory>
        ensures mailbox { OnOk result (self.new ≡ emptied at self.old) }
        ensures err { OnErr result (self.new ≡ self.old) }
    {
        let uids = messages::uids_of_all(alloc, &self.messages)?;
        update_lists::touch_for_all(&mut self.lists, at, &uids)?;
        self.messages.clear();
        self.weight = 0;
        Ok(())
    }

    /// Begins the list of a client, with all that lives on it.
    pub fn add_client(&mut self, alloc: Global, at: u64, client: Name) -> Result<(), Memory>
        ensures mailbox { OnOk result (self.new ≡ with_client at client self.old) }
        ensures err { OnErr result (self.new ≡ self.old) }
    {
        let uids = messages::uids_of_all(alloc, &self.messages)?;
        let list = update_lists::list_with(alloc, at, &uids)?;
        if self.lists.len() >= MOST_LISTS {
            return Err(Memory);
        }
        self.lists.reserve(1)?;
        update_lists::remove(&mut self.lists, &client);
        self.lists.push((client, list))?;
        Ok(())
    }

    /// Ends the list of a client.
    pub fn remove_client(&mut self, client: Name)
        ensures { self.new ≡ without_client client self.old }
    {
        update_lists::remove(&mut self.lists, &client);
    }

    /// Puts all that lives on the list of a client.
    pub fn touch_all(&mut self, alloc: Global, at: u64, client: Name) -> Result<(), Memory>
        ensures mailbox { OnOk result (self.new ≡ reset_for at client self.old) }
        ensures err { OnErr result (self.new ≡ self.old) }
    {
        let uids = messages::uids_of_all(alloc, &self.messages)?;
        update_lists::touch_for(&mut self.lists, at, &client, &uids)
    }

    /// Takes these uids off the list of a client.
    pub fn forget(&mut self, client: Name, uids: &Uids)
        ensures { self.new ≡ taken_by client uids.now self.old }
    {
        update_lists::forget(&mut self.lists, &client, uids.as_slice());
    }

    /// The descriptors of the messages from one uid to another, both among them.
    pub fn descriptors(&self, alloc: Global, low: u32, high: u32) -> Result<Changes, Memory>
        ensures value { IfOk result (λ changes. changes ≡ described low high self.now.messages) }
        ensures history { InEachHistory self.now (λ k mailbox. IfOk result (λ changes. changes ≡ descriptors_between low high k mailbox)) }
    {
        messages::describe_all(alloc, &self.messages, low, high)
    }

    /// The message with this uid, if it lives.
    pub fn body(&self, uid: u32) -> Option<&Message>
        ensures value { option_copied result ≡ message_at uid self.now }
        ensures history { InEachHistory self.now (λ k mailbox. option_copied result ≡ message_in uid k mailbox) }
    {
        let kept = messages::find(&self.messages, uid)?;
        Some(&kept.message)
    }

    /// The first so many changes on the list of a client.
    pub fn changed(&self, alloc: Global, client: Name, count: u32) -> Result<Shown, Memory>
        ensures value { IfOk result (λ shown. shown ≡ take count (list_of self.now client)) }
        ensures history { InEachHistory self.now (λ k mailbox. IfOk result (λ shown. shown ≡ first_changes k client mailbox count)) }
    {
        match update_lists::list_of(&self.lists, &client) {
            Some(list) => list.first(alloc, count),
            None => Ok(Shown::new(alloc)),
        }
    }

    /// The flags of the message with this uid, if it lives. Flag 0 is the lowest bit.
    pub fn live(&self, uid: u32) -> Option<u16>
        ensures value { result ≡ flags_at uid self.now }
        ensures history { InEachHistory self.now (λ k mailbox. result ≡ flags_in uid k mailbox) }
    {
        let kept = messages::find(&self.messages, uid)?;
        Some(kept.flags)
    }

    /// The last uid that was given, or 0.
    pub fn highest(&self) -> u32
        ensures highest { result ≡ self.now.highest }
        ensures bound { result ≤ MOST_UIDS }
        ensures history { InEachHistory self.now (λ k mailbox. result ≡ k.highest mailbox) }
    {
        self.highest
    }

    /// How many messages live.
    pub fn count(&self) -> u32
        ensures count { result ≡ length self.now.messages }
        ensures bound { result ≤ MOST_MESSAGES }
        ensures history { InEachHistory self.now (λ k mailbox. result ≡ length (messages k mailbox)) }
    {
        self.messages.len() as u32
    }

    /// The messages that live, by rising uid.
    pub fn messages(&self) -> &[Kept]
        ensures { result.now ≡ self.now.messages }
    {
        &self.messages
    }

    /// The clients' update lists, each with the client's name.
    pub fn lists(&self) -> &[(Name, UpdateList)]
        ensures { result.now ≡ self.now.lists }
    {
        &self.lists
    }

    /// What the messages that live count for, each its size and 256 bytes.
    pub fn weight(&self) -> u32
        ensures value { result ≡ weight_of_all self.now.messages }
        ensures history { InEachHistory self.now (λ k mailbox. result ≡ weight_of_all (messages k mailbox)) }
    {
        self.weight
    }

    /// Whether flag 0 of a message that lives is on.
    pub fn deletes(&self) -> bool
        ensures value { result ≡ list_any is_deleted self.now.messages }
        ensures history { InEachHistory self.now (λ k mailbox. result ≡ list_any is_deleted (messages k mailbox)) }
    {
        messages::any_deleted(&self.messages)
    }

    /// The stamp of the uid, where the client has it listed.
    pub fn is_listed(&self, client: Name, uid: u32) -> Option<u64>
        ensures value { result ≡ stamp_at uid (list_of self.now client) }
        ensures history { InEachHistory self.now (λ k mailbox. result ≡ k.listed client mailbox uid) }
    {
        let list = update_lists::list_of(&self.lists, &client)?;
        list.stamp(uid)
    }

    /// How many uids the client has listed.
    pub fn listed_of(&self, client: Name) -> u32
        ensures value { result ≡ length (list_of self.now client) }
        ensures history { InEachHistory self.now (λ k mailbox. result ≡ length (k.changes client mailbox)) }
    {
        match update_lists::list_of(&self.lists, &client) {
            Some(list) => list.count(),
            None => 0,
        }
    }

    /// How many changes are on all lists.
    pub fn listed(&self) -> u64
        ensures { result ≡ listed_in self.now.lists }
    {
        update_lists::count_listed(&self.lists)
    }

    /// How many clients have the uid listed.
    pub fn takers(&self, uid: u32) -> u32
        ensures value { result ≡ takers_of uid self.now.lists }
        ensures history { InEachHistory self.now (λ k mailbox. result ≡ takers_in uid k mailbox) }
    {
        update_lists::count_takers(&self.lists, uid) as u32
    }

    /// How many changes more the lists would have if all messages were touched for every client.
    pub fn unlisted(&self) -> u64
        ensures { result ≡ unlisted_by_all false self.now.messages self.now.lists }
    {
        growth::count_unlisted_by_all(&self.lists, &self.messages, false)
    }

    /// How many changes more the lists would have if the messages whose flag 0 is on were touched
    /// for every client.
    pub fn unlisted_deleted(&self) -> u64
        ensures { result ≡ unlisted_by_all true self.now.messages self.now.lists }
    {
        growth::count_unlisted_by_all(&self.lists, &self.messages, true)
    }

    /// How many changes more the list of a client would have if all messages were touched for it.
    pub fn unlisted_of(&self, client: Name) -> u64
        ensures unlisted { result ≡ unlisted_for client self.now }
        ensures bound { result ≤ MOST_MESSAGES }
    {
        match update_lists::list_of(&self.lists, &client) {
            Some(list) => growth::count_unlisted(list, &self.messages, false) as u64,
            None => 0,
        }
    }
}
