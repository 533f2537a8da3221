//! What the cache answers.

ghost use Rattle.std.specs.Prelude.{◌≡◌, ◌≤◌, IfOk};
ghost use Rattle.std.specs.List.{AllByRecursion, filter};
ghost use Rattle.pc_cache_history.specs.declared.item.Item.{Item as Queued};
ghost use Rattle.pc_cache_history.specs.Known.{said_by, has};
ghost use Rattle.pc_cache_history.specs.History.{History, known};
ghost use Rattle.pc_cache_history.specs.View.{flags_over, shown_changes};
ghost use Rattle.pc_cache.specs.Shown.{is_of};
ghost use Rattle.pc_cache.specs.State.{StandsFor};

use crate::cache::Cache;
use crate::descriptors::copy_of;
use pc_base::{Memory, Name, Names};
use pc_cache_history::Item;
use pc_message::{Change, Changes};
use std::alloc::Global;

impl Cache {
    /// The number of the last `Begin`, or 0.
    pub fn birth(&self) -> u64
        ensures held { result ≡ (said_by self.now).birth }
        ensures history { (h : History) → StandsFor self.now h → result ≡ (known h).birth }
    {
        self.holdings.birth()
    }

    /// Whether the copies were begun, and the repository hasn't yet begun its lists anew.
    pub fn is_resetting(&self) -> bool
        ensures held { result ≡ (said_by self.now).resetting }
        ensures history { (h : History) → StandsFor self.now h → result ≡ (known h).resetting }
    {
        self.holdings.is_resetting()
    }

    /// The mailboxes, in order of their first taking.
    pub fn mailboxes(&self) -> &Names
        ensures held { result.now ≡ (said_by self.now).mailboxes }
        ensures history { (h : History) → StandsFor self.now h → result.now ≡ (known h).mailboxes }
    {
        self.holdings.mailboxes().names()
    }

    /// The changes that were queued and not answered, in order.
    pub fn queue(&self) -> &[Item]
        ensures held { result.now ≡ (said_by self.now).queue }
        ensures history { (h : History) → StandsFor self.now h → result.now ≡ (known h).queue }
    {
        self.holdings.queue()
    }

    /// Whether the mailbox has a message with this uid.
    pub fn has(&self, mailbox: &Name, uid: u32) -> bool
        ensures held { result ≡ has (said_by self.now) mailbox.now uid }
        ensures history { (h : History) → StandsFor self.now h → result ≡ has (known h) mailbox.now uid }
    {
        self.holdings.mailboxes().has(mailbox, uid)
    }

    /// The messages of a mailbox by rising uid, with the queue laid over their flags, as changes.
    pub fn view(&self, alloc: Global, mailbox: &Name) -> Result<Changes, Memory>
        ensures held { IfOk result (λ changes. changes ≡ shown_changes (said_by self.now) mailbox.now) }
        ensures history { (h : History) → StandsFor self.now h → IfOk result (λ changes. changes ≡ shown_changes (known h) mailbox.now) }
    {
        let items = items_of(alloc, self.queue(), mailbox)?;
        let mut changes = Changes::new(alloc);
        for descriptor in self.holdings.mailboxes().descriptors(mailbox) {
            let mut shown = copy_of(alloc, descriptor)?;
            shown.flags = laid_over(items.as_slice(), mailbox, shown.uid, shown.flags);
            changes.push(Change::Present(shown))?;
        }
        Ok(changes)
    }
}

/// The queued changes of a mailbox.
fn items_of(alloc: Global, queue: &[Item], mailbox: &Name) -> Result<Vec<Item>, Memory>
    ensures { IfOk result (λ items. items.items ≡ filter (is_of mailbox.now) queue.now) }
{
    let mut items = Vec::new(alloc);
    for item in queue {
        if item.mailbox == *mailbox {
            items.push(*item)?;
        }
    }
    Ok(items)
}

/// The flags of a message with queued changes laid over them, one after the other.
fn laid_over(items: &[Item], mailbox: &Name, uid: u32, flags: u16) -> u16
    requires { AllByRecursion (λ (item : Queued). item.flag ≤ 15) items.now }
    ensures { result ≡ flags_over mailbox.now uid items.now flags }
{
    let mut shown = flags;
    for item in items {
        shown = item.laid_over(mailbox, uid, shown);
    }
    shown
}
