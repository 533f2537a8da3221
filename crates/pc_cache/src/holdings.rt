//! What a cache holds, and what each entry makes of it.

ghost use Rattle.std.specs.Prelude.{◌≡◌, suc, ◌<◌, ◌++◌, IsTrue, OnOk};
ghost use Rattle.pc_cache_history.specs.declared.entry.CacheEntry.TheVariants as entry;
ghost use Rattle.pc_cache_history.specs.Record.{empty_record};
ghost use Rattle.pc_cache_history.specs.Effect.{new_items, other_items};
ghost use Rattle.pc_cache_history.specs.Known.{said_by};
ghost use Rattle.pc_cache_history.specs.Allowed.{is_allowed};
ghost use Rattle.pc_cache_history.specs.Step.{after};

use crate::mailboxes::Mailboxes;
use pc_base::{Memory, Name};
use pc_cache_history::{CacheEntry, Item, LAST_QUEUED};
use std::alloc::Global;
use std::marker::Model;

/// The record of a cache.
#[derive(Drop)]
pub struct Holdings {
    birth: u64,
    resetting: bool,
    mailboxes: Mailboxes,
    last: u64,
    queue: Vec<Item>,
}

impl Model for Holdings {
    ghost use Rattle.pc_cache_history.specs.Record.{CacheRecord};

    ghost Value = { CacheRecord };

    ghost view = { λ h. record {
      birth = h.birth;
      resetting = h.resetting;
      mailboxes = h.mailboxes;
      last = h.last;
      queue = h.queue.items;
    } };
}

impl Holdings {
    /// Those of a new cache. They take no memory.
    pub fn empty(alloc: Global) -> Holdings
        ensures { result ≡ empty_record }
    {
        Holdings {
            birth: 0,
            resetting: true,
            mailboxes: Mailboxes::new(alloc),
            last: 0,
            queue: Vec::new(alloc),
        }
    }

    /// The number of the last `Begin`, or 0.
    pub fn birth(&self) -> u64
        ensures { result ≡ self.now.birth }
    {
        self.birth
    }

    /// Whether the copies were begun, and the repository hasn't yet begun its lists anew.
    pub fn is_resetting(&self) -> bool
        ensures { result ≡ self.now.resetting }
    {
        self.resetting
    }

    /// The mailboxes, in order.
    pub fn mailboxes(&self) -> &Mailboxes
        ensures { result.now ≡ self.now.mailboxes }
    {
        &self.mailboxes
    }

    /// The number of the last change that was queued, or 0.
    pub fn last(&self) -> u64
        ensures { result ≡ self.now.last }
    {
        self.last
    }

    /// The changes that were queued and not answered, in order.
    pub fn queue(&self) -> &[Item]
        ensures { result.now ≡ self.now.queue }
    {
        self.queue.as_slice()
    }

    /// Makes the step of an allowed entry. After `Err` the holdings aren't used again.
    pub fn step(&mut self, alloc: Global, entry: &CacheEntry) -> Result<(), Memory>
        requires { IsTrue (is_allowed (said_by self.old) entry.now) }
        ensures { OnOk result (self.new ≡ after self.old entry.now) }
    {
        match entry {
            CacheEntry::Begin { birth } => {
                self.begin(alloc, *birth);
                Ok(())
            }
            CacheEntry::Synced => {
                self.resetting = false;
                Ok(())
            }
            CacheEntry::Took { mailbox, changes } => {
                self.mailboxes.take(alloc, mailbox, changes.as_slice())
            }
            CacheEntry::Kept { names } => self.mailboxes.keep(alloc, names.as_slice()),
            CacheEntry::Queue {
                mailbox,
                uid,
                flag,
                on,
            } => self.enqueue(mailbox, *uid, *flag, *on),
            CacheEntry::Answered { number } => {
                self.answer(*number);
                Ok(())
            }
        }
    }

    /// Begins the copies anew.
    fn begin(&mut self, alloc: Global, birth: u64)
        ensures { self.new ≡ after self.old (entry.Begin birth) }
    {
        self.birth = birth;
        self.resetting = true;
        self.mailboxes = Mailboxes::new(alloc);
    }

    /// Puts a change behind the others, with the next number.
    fn enqueue(&mut self, mailbox: &Name, uid: u32, flag: u8, on: bool) -> Result<(), Memory>
        requires { self.old.last < LAST_QUEUED }
        ensures { OnOk result (self.new ≡ after self.old (entry.Queue mailbox.now uid flag on)) }
    {
        let number = self.last + 1;
        self.queue.push(Item {
            number,
            mailbox: *mailbox,
            uid,
            flag,
            on,
        })?;
        self.last = number;
        Ok(())
    }

    /// Takes the change of this number out of the queue.
    fn answer(&mut self, number: u64)
        ensures { self.new ≡ after self.old (entry.Answered number) }
    {
        self.queue.retain(|item| item.number != number);
    }
}
