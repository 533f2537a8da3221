//! What a session uses of the desk of a user.

ghost use Rattle.std.specs.Prelude.{◌≡◌, ℕ, ◌+◌, ◌^◌, ◌<◌, ◌≤◌, List, true, false, None, Err, IsTrue, IfSome, MatchOption};
ghost use Rattle.pc_base.specs.CommitFault.{OnDevice};
ghost use Rattle.pc_base.specs.declared.store_fault.StoreFault.TheVariants as store;
ghost use Rattle.pc_account_holdings.specs.State.{StandsFor};
ghost use Rattle.pc_account_records.specs.Legal.{accepts};
ghost use Rattle.pc_account_spelling.specs.EntryForm.{entry_fits};
ghost use Rattle.pc_session.specs.Desk.{DeskState, Commits, Opens, Released, Takes, entry_at, room_of};

use pc_account::Account;
use pc_account_history::Entry;
use pc_base::{CommitFault, Name, Room, StoreFault};
use std::alloc::Global;

/// The latest session of a client: the one that was drawn for it last.
#[derive(Clone, Copy)]
pub struct Latest {
    /// Its number.
    pub number: u64,
    /// Whether it hasn't ended.
    pub live: bool,
    /// Whether its LOGIN said that the client is a batch client.
    pub batch: bool,
}

/// Why no session number was drawn.
#[derive(Clone, Copy, Debug, PartialEq, Eq)]
pub enum TakeFault {
    /// The last number was drawn, 2^63 - 1.
    Limit,
    /// Want of memory.
    Memory,
}

/// The desk of a user: the account with its journal, and the latest session of each client.
pub trait DeskAccess {
    /// Whether its disk tells its bytes.
    ghost tells: { Type 0 };

    /// The user.
    ghost user: { Self → List ℕ };

    /// What it holds.
    ghost told: { Self → DeskState };

    /// Whether a device call of its disk from now on is to fail, where the disk tells which do.
    ghost fails: { Self → Type 0 };

    /// How many bytes its disk has given.
    ghost taken: { Self → ℕ };

    /// The account.
    fn account(&self) -> &Account
        requires { (told self.now).broken ≡ false }
        ensures state { result.now ≡ (told self.now).state }
        ensures history { StandsFor (told self.now).state (told self.now).history };

    /// How much the journal still takes.
    fn room(&self) -> Room
        ensures { result ≡ room_of (told self.now).history };

    /// Makes an entry durable, and answers its number. It takes its memory first.
    fn commit(&mut self, alloc: Global, entry: Entry) -> Result<u64, CommitFault>
        requires whole { (told self.old).broken ≡ false }
        requires accepted { accepts (told self.old).state entry ≡ true }
        ensures commits { Commits entry (told self.old) result (told self.new) }
        ensures device { OnDevice result (fails self.old) }
        ensures ahead { fails self.new → fails self.old }
        ensures taken { taken self.new ≡ taken self.old }
        ensures faults { (told self.old).faults ≤ (told self.new).faults }
        ensures user { user self.new ≡ user self.old };

    /// Whether the store is to be opened again before the account is used.
    fn is_broken(&self) -> bool
        ensures broken { result ≡ (told self.now).broken }
        ensures doubt { (told self.now).broken ≡ false → (told self.now).doubt ≡ None };

    /// Opens the store again. Its disk fails only where a device call was to fail, unless nearly all was read
    /// that can be counted.
    fn mend(&mut self, alloc: Global) -> Result<(), StoreFault>
        ensures opens { Opens tells (told self.old) result (told self.new) }
        ensures device { taken self.old + 2 ^ 31 < 2 ^ 64 → result ≡ Err store.Device → fails self.old }
        ensures ahead { fails self.new → fails self.old }
        ensures taken { taken self.new ≤ taken self.old + 2 ^ 31 }
        ensures faults { (told self.old).faults ≤ (told self.new).faults }
        ensures user { user self.new ≡ user self.old };

    /// The entry of this number, where it is one since the last folding.
    fn kept(&self, number: u64) -> Option<&Entry>
        ensures entry { MatchOption result (entry_at (told self.now).history number ≡ None) (λ entry. entry_at (told self.now).history number ≡ Some entry.now) }
        ensures fits { IfSome result (λ entry. IsTrue (entry_fits entry.now)) };

    /// The latest session of a client.
    fn latest(&self, client: &Name) -> Option<Latest>
        ensures { result ≡ (told self.now).latest client.now };

    /// The last session number drawn since the desk was made, 0 before the first.
    fn drawn(&self) -> u64
        ensures { result ≡ (told self.now).drawn };

    /// Draws the next session number for a client, whose latest session it then is.
    fn take_over(&mut self, client: Name, batch: bool) -> Result<u64, TakeFault>
        ensures takes { Takes client batch (told self.old) result (told self.new) }
        ensures ahead { fails self.new → fails self.old }
        ensures taken { taken self.new ≡ taken self.old }
        ensures faults { (told self.old).faults ≤ (told self.new).faults }
        ensures user { user self.new ≡ user self.old };

    /// The session of this number has ended.
    fn release(&mut self, client: Name, number: u64)
        ensures released { Released client number (told self.old) (told self.new) }
        ensures ahead { fails self.new → fails self.old }
        ensures taken { taken self.new ≡ taken self.old }
        ensures faults { (told self.old).faults ≤ (told self.new).faults }
        ensures user { user self.new ≡ user self.old };
}
