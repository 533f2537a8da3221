//! The desk itself.

ghost use Rattle.std.specs.Prelude.{◌≡◌, ℕ, ◌<◌, ◌↔◌, ◌+◌, ◌≤◌, false, None, [], IfSome};
ghost use Rattle.pc_account_spelling.specs.Spelling.{spelled_record};
ghost use Rattle.pc_house.specs.Base.{BaseOf, BaseOf-prop};

use crate::sessions::Sessions;
use pc_account::Account;
use pc_base::{Machine, Name};
use pc_disk::{Choice, Disk, MemoryDisk};
use pc_session::laws::record_answers_sessions;
use pc_store::Store;
use std::alloc::Global;
use std::marker::Model;

/// A user's account on a disk, and the latest session of each client.
#[derive(Drop)]
pub struct Desk<D: Disk + Drop> {
    pub(crate) user: Name,
    pub(crate) store: Store<Account, D>,
    pub(crate) drawn: u64,
    pub(crate) sessions: Sessions,
    // the record that the bytes of the store's base are
    pub(crate) ghost base: { BaseOf store.head.base } by { BaseOf-prop store.head.base },
}

impl<D: Disk + Drop> Model for Desk<D> {
    ghost use Rattle.pc_house.specs.Base.{base_of};
    ghost use Rattle.pc_house.specs.Desk.{DeskValue, IsDesk};

    ghost Value = { DeskValue D };

    ghost view = { λ d. record { user = d.user; base = base_of d.base; store = d.store; drawn = d.drawn; sessions = d.sessions } };

    ghost invariant = { λ d. IsDesk (record { user = d.user; base = base_of d.base; store = d.store; drawn = d.drawn; sessions = d.sessions }) };
}

impl<D: Disk + Drop> Desk<D> {
    ghost use Rattle.pc_account_history.specs.History.{History, ◌▸▸◌};
    ghost use Rattle.pc_account_history.specs.Laws.{folded};
    ghost use Rattle.pc_account_holdings.specs.State.{StandsFor};
    ghost use Rattle.pc_disk.specs.Images.{Images};
    ghost use Rattle.pc_store.specs.Store.{OpensInDoubt};
    ghost use Rattle.pc_session.specs.InPlace.{AnswersAsOver};
    ghost use Rattle.pc_house.specs.Folded.{HasRecordOf};
    ghost use Rattle.pc_house.specs.Desk.{history_of, told_by};

    /// The desk of a user whose account this store holds. No number of a session was drawn.
    pub fn new(alloc: Global, user: Name, store: Store<Account, D>) -> Desk<D>
        requires { store.broken ≡ false }
        ensures user { result.user ≡ user }
        ensures store { result.store ≡ store }
        ensures drawn { result.drawn ≡ 0 }
        ensures sessions { result.sessions ≡ [] }
        ensures base { spelled_record result.base ≡ store.head.base }
        ensures history { StandsFor store.state (history_of result.base store) }

        // Where the store was folded, its history is the record of the one before the fold, and the entries since then;
        // and the desk answers as over that history with them.
        ensures in_place { (h : History) → HasRecordOf h store.head → history_of result.base store ≡ (folded h ▸▸ store.trail) }
        ensures answers { (h : History) → HasRecordOf h store.head → AnswersAsOver (h ▸▸ store.trail) (told_by D.faults result) }
    {
        // what stands is known once the state is read
        let _state = store.state();
        let _doubt = store.doubt();
        record_answers_sessions();
        Desk {
            user,
            store,
            drawn: 0,
            sessions: Sessions::new(alloc),
        }
    }

    /// The store.
    pub fn store(&self) -> &Store<Account, D>
        ensures { result.now ≡ self.now.store }
    {
        &self.store
    }

    /// The disk.
    pub fn into_disk(self) -> D
        ensures disk { result ≡ self.store.disk }

        // A crash now leaves the history, with the entry in doubt or without it.
        ensures leaves { D.tells → (left : Images) → D.may_leave result left → OpensInDoubt ⟦<Account as Machine>⟧ self.store left }
    {
        let Desk {
            user: _,
            store,
            drawn: _,
            sessions: _,
        } = self;
        store.into_disk()
    }
}

impl Desk<MemoryDisk> {
    ghost use Rattle.pc_disk.specs.Alarm.{IsDue, unarmed};

    /// Lets the k-th device call from now fail. It then changes nothing.
    pub fn fail_at(&mut self, k: u32)
        requires { 0 < k }
        ensures state { self.new ≡ record self.old { store = record self.old.store { disk = record self.old.store.disk { alarm = record self.old.store.disk.alarm { failing = k } } } } }
        ensures due { self.old.store.disk.alarm ≡ unarmed → (ahead : ℕ) → IsDue self.new.store.disk.alarm ahead ↔ (ahead + 1 ≡ k) }
    {
        self.store.fail_at(k);
    }

    /// Stops the disk at the k-th device call from now, which fails, as each call after it does.
    pub fn stop_at(&mut self, k: u32, choice: Choice)
        requires { 0 < k }
        ensures state { self.new ≡ record self.old { store = record self.old.store { disk = record self.old.store.disk { alarm = record self.old.store.disk.alarm { stopping = k; choice = choice } } } } }
        ensures due { self.old.store.disk.alarm ≡ unarmed → (ahead : ℕ) → IsDue self.new.store.disk.alarm ahead ↔ (k ≤ ahead + 1) }
    {
        self.store.stop_at(k, choice);
    }

    /// Whether the disk has stopped.
    pub fn stopped(&self) -> bool
        ensures { result ≡ self.now.store.disk.alarm.is_stopped }
    {
        self.store.stopped()
    }
}
