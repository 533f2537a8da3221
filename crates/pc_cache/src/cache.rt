//! The cache of a client.

ghost use Rattle.std.specs.Prelude.{◌≡◌, IsTrue, OnOk, OnErr, IfOk};
ghost use Rattle.pc_cache_history.specs.Record.{empty_record};
ghost use Rattle.pc_cache_history.specs.Known.{said_by};
ghost use Rattle.pc_cache_history.specs.History.{History, ◌▻◌, new_cache, known};
ghost use Rattle.pc_cache_history.specs.Allowed.{is_allowed};
ghost use Rattle.pc_cache_history.specs.Step.{after};
ghost use Rattle.pc_cache.specs.State.{StandsFor};

use crate::allowing::is_allowed;
use crate::holdings::Holdings;
use pc_base::Memory;
use pc_cache_history::CacheEntry;
use std::alloc::Global;
use std::marker::Model;

/// The cache of a client. Contracts see the record of its history.
#[derive(Drop)]
pub struct Cache {
    pub(crate) holdings: Holdings,
}

impl Model for Cache {
    ghost use Rattle.pc_cache_history.specs.Record.{CacheRecord};
    ghost use Rattle.pc_cache_history.specs.Legal.{IsCanonical};

    ghost Value = { CacheRecord };

    ghost view = { λ cache. cache.holdings };

    ghost invariant = { λ cache. IsCanonical cache.holdings };
}

impl Cache {
    /// A cache without entries.
    pub fn empty(alloc: Global) -> Result<Cache, Memory>
        ensures record { IfOk result (λ cache. cache ≡ empty_record) }
        ensures history { IfOk result (λ cache. StandsFor cache new_cache) }
    {
        Ok(Cache {
            holdings: Holdings::empty(alloc),
        })
    }

    /// Whether the entry may come next. It takes no memory: where the uids of a `Took` or the names
    /// of a `Kept` don't rise, they are put in order on the stack.
    pub fn allows(&self, entry: &CacheEntry) -> bool
        ensures held { result ≡ is_allowed (said_by self.now) entry.now }
        ensures history { (h : History) → StandsFor self.now h → result ≡ is_allowed (known h) entry.now }
    {
        is_allowed(&self.holdings, entry)
    }

    /// Makes the step of an allowed entry. After `Err` the cache isn't used again; it is empty.
    pub fn apply(&mut self, alloc: Global, entry: &CacheEntry) -> Result<(), Memory>
        requires { IsTrue (is_allowed (said_by self.old) entry.now) }
        ensures ok { OnOk result (self.new ≡ after self.old entry.now) }
        ensures history { (h : History) → StandsFor self.old h → OnOk result (StandsFor self.new (h ▻ entry.now)) }
        ensures err { OnErr result (self.new ≡ empty_record) }
    {
        if self.holdings.step(alloc, entry).is_err() {
            self.holdings = Holdings::empty(alloc);
            return Err(Memory);
        }
        Ok(())
    }
}
