//! What a session uses of a desk.

ghost use Rattle.std.specs.Prelude.{◌≡◌, nat_lt, length};
ghost use Rattle.std.specs.Option.{option_and_then};
ghost use Rattle.pc_house.specs.Sessions.{dropped_by, dropped_if};

use crate::desk::Desk;
use crate::sessions::client_dropped;
use pc_account::Account;
use pc_account_history::Entry;
use pc_base::{CommitFault, Name, Room, StoreFault};
use pc_disk::Disk;
use pc_session::{DeskAccess, Latest, TakeFault};
use pc_store::Store;
use std::alloc::Global;

/// The last number of a session.
const LAST_SESSION: u64 = 9_223_372_036_854_775_807;

impl<D: Disk + Drop> DeskAccess for Desk<D> {
    ghost use Rattle.pc_house.specs.Desk.{DeskFails, told_by};

    ghost tells = { D.tells };

    ghost user = { λ desk. desk.user };

    ghost told = { told_by D.faults };

    ghost fails = { DeskFails D.tells_due D.moment D.due };

    ghost taken = { λ desk. D.taken desk.store.disk };

    fn account(&self) -> &Account {
        self.store.state()
    }

    fn room(&self) -> Room {
        self.store.room()
    }

    fn commit(&mut self, alloc: Global, entry: Entry) -> Result<u64, CommitFault> {
        let dropped = client_dropped(&entry);
        let number = self.store.commit(alloc, entry)?;
        self.sessions.forget(dropped);
        Ok(number)
    }

    fn is_broken(&self) -> bool {
        self.store.is_broken()
    }

    fn mend(&mut self, alloc: Global) -> Result<(), StoreFault> {
        let dropped = dropped_in_doubt(&self.store);
        let count = self.store.trail().len();
        self.store.reopen(alloc)?;
        let gone = only_if_longer(&self.store, count, dropped);
        self.sessions.forget(gone);
        Ok(())
    }

    fn kept(&self, number: u64) -> Option<&Entry> {
        if number < self.store.first() {
            return None;
        }
        self.store
            .trail()
            .get((number - self.store.first()) as usize)
    }

    fn latest(&self, client: &Name) -> Option<Latest> {
        self.sessions.of(client)
    }

    fn drawn(&self) -> u64 {
        self.drawn
    }

    fn take_over(&mut self, client: Name, batch: bool) -> Result<u64, TakeFault> {
        if self.drawn == LAST_SESSION {
            return Err(TakeFault::Limit);
        }
        let number = self.drawn + 1;
        let session = Latest {
            number,
            live: true,
            batch,
        };
        let Ok(()) = self.sessions.put(client, session) else {
            return Err(TakeFault::Memory);
        };
        self.drawn = number;
        Ok(number)
    }

    fn release(&mut self, client: Name, number: u64) {
        self.sessions.end(&client, number);
    }
}

// The client that the entry in doubt takes away, where it does.
fn dropped_in_doubt<D: Disk + Drop>(store: &Store<Account, D>) -> Option<Name>
    ensures { result ≡ option_and_then dropped_by store.now.doubt }
{
    match store.doubt() {
        Some(entry) => client_dropped(entry),
        None => None,
    }
}

// The client, where the store has more entries than it had.
fn only_if_longer<D: Disk + Drop>(
    store: &Store<Account, D>,
    count: usize,
    dropped: Option<Name>,
) -> Option<Name>
    ensures { result ≡ dropped_if (nat_lt count (length store.now.trail)) dropped }
{
    if count < store.trail().len() {
        dropped
    } else {
        None
    }
}
