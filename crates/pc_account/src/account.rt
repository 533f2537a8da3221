//! The account of one user.

ghost use Rattle.std.specs.Prelude.{◌≡◌, ◌<◌, ◌≤◌, ◌-◌, ◌^◌, ◌++◌, length, false, IsTrue, OnOk, OnErr, IfOk, if◌then◌else◌};
ghost use Rattle.std.specs.Option.{option_map_or};
ghost use Rattle.std.specs.Map.{lookup};
ghost use Rattle.pc_base.specs.Machine.{FaultAt};
ghost use Rattle.pc_tables.specs.Table.{same};
ghost use Rattle.pc_account_history.specs.History.{History, start, ◌▸◌, new_account, known, birth, next};
ghost use Rattle.pc_account_history.specs.Legal.{IsLegal};
ghost use Rattle.pc_account_history.specs.Step.{record_of};
ghost use Rattle.pc_account_spelling.specs.Spelling.{spelled_record};
ghost use Rattle.pc_account_spelling.specs.RecordForm.{IsRecordFault, fits_record};
ghost use Rattle.pc_account_holdings.specs.State.{new_state, said, StandsFor, may_follow, step};
ghost use Rattle.pc_account_records.specs.Legal.{IsCanonicalState};
ghost use Rattle.pc_account_records.specs.Numbered.{suits, numbered};

use pc_account_history::Entry;
use pc_account_holdings::Holdings;
use pc_account_records::{load, save, suits};
use pc_base::{Bytes, Memory, Name, ReadFault};
use std::alloc::Global;
use std::marker::Model;

/// One user's mail state. Contracts see the record of its history, with the number of the next entry.
#[derive(Drop)]
pub struct Account {
    pub(crate) holdings: Holdings,
}

impl Model for Account {
    ghost use Rattle.std.specs.Prelude.{◌≤◌, ◌^◌};
    ghost use Rattle.pc_account_history.specs.Legal.{IsCanonical};
    ghost use Rattle.pc_account_holdings.specs.State.{State};

    ghost Value = { State };

    ghost view = { λ account. account.holdings };

    ghost invariant = { λ account. IsCanonical account.holdings.held account.holdings.next × (account.holdings.next ≤ 2 ^ 63) };
}

impl Account {
    /// An account without entries.
    pub fn empty(alloc: Global) -> Result<Account, Memory>
        ensures state { IfOk result (λ account. account ≡ new_state) }
        ensures history { IfOk result (λ account. StandsFor account new_account) }
    {
        Ok(Account {
            holdings: Holdings::empty(alloc),
        })
    }

    /// Makes the step of an entry that may come next. After `Err` the account isn't used again; it
    /// is empty.
    pub fn apply(&mut self, alloc: Global, entry: &Entry) -> Result<(), Memory>
        requires allowed { IsTrue (may_follow (said self.old) entry.now) }
        requires next { self.old.next ≤ 2 ^ 63 - 1 }
        ensures ok { OnOk result (self.new ≡ step self.old entry.now) }
        ensures history { (h : History) → StandsFor self.old h → OnOk result (StandsFor self.new (h ▸ entry.now)) }
        ensures err { OnErr result (self.new ≡ new_state) }
    {
        if self.holdings.step(alloc, entry).is_err() {
            self.holdings = Holdings::empty(alloc);
            return Err(Memory);
        }
        Ok(())
    }

    /// Whether this is the digest of the password.
    pub fn password_is(&self, digest: &[u8; 32]) -> bool
        ensures held { result ≡ option_map_or (same digest.now) (said self.now).digest false }
        ensures history { (h : History) → StandsFor self.now h → result ≡ option_map_or (same digest.now) (known h).digest false }
    {
        match self.holdings.digest() {
            None => false,
            Some(present) => *digest == present,
        }
    }

    /// The number of the entry that made the client last, where the client is there.
    pub fn birth(&self, client: &Name) -> Option<u64>
        ensures held { result ≡ lookup (same client.now) (said self.now).clients }
        ensures history { (h : History) → StandsFor self.now h → result ≡ birth h client.now }
    {
        self.holdings.birth(client)
    }

    /// The number of the last mail pulled.
    pub fn pulled(&self) -> u64
        ensures held { result ≡ (said self.now).pulled }
        ensures history { (h : History) → StandsFor self.now h → result ≡ (known h).pulled }
    {
        self.holdings.pulled()
    }

    /// The number of the next entry.
    pub fn next(&self) -> u64
        ensures held { result ≡ self.now.next }
        ensures history { (h : History) → StandsFor self.now h → result ≡ next h }
    {
        self.holdings.next()
    }

    /// Appends the record of the account. After `Err` nothing is known of what was appended.
    pub fn save(&self, out: &mut Bytes) -> Result<(), Memory>
        ensures { OnOk result (out.new ≡ out.old ++ spelled_record self.now.held) }
    {
        save(&self.holdings, out)
    }

    /// Reads the record of an account. `Malformed` names the first field at which no record goes
    /// on. The number of the next entry isn't in the record: until it is given by `number_from`, it
    /// is past all that there can be. What was saved of a legal history is loaded as its record.
    pub fn load(alloc: Global, bytes: &[u8]) -> Result<Account, ReadFault>
        ensures found { IfOk result (λ state. IsCanonicalState state × (spelled_record state.held ≡ bytes.now)) }
        ensures next { IfOk result (λ state. state.next ≡ 2 ^ 63) }
        ensures base { IfOk result (λ state. StandsFor state (start state.held state.next)) }
        ensures history { (h : History)
            → IsLegal h
            → IsTrue (fits_record (record_of h))
            → spelled_record (record_of h) ≡ bytes.now
            → IfOk result (λ state. record_of h ≡ state.held) }
        ensures fault { FaultAt result (IsRecordFault bytes.now) }
        ensures within { FaultAt result (λ place. place ≤ length bytes.now) }
    {
        match load(alloc, bytes) {
            Ok(holdings) => Ok(Account { holdings }),
            Err(fault) => Err(fault),
        }
    }

    /// Gives an account that was just made or loaded the number of its next entry, and answers
    /// whether it suits: it is past all births and stamps. If not, nothing changes. The account then
    /// stands for each legal history with its record whose next entry has this number.
    pub fn number_from(&mut self, first: u64) -> bool
        requires some { 0 < first }
        requires most { first ≤ 2 ^ 63 }
        ensures answer { result ≡ suits self.old first }
        ensures state { self.new ≡ (if suits self.old first then numbered self.old first else self.old) }
        ensures base { IsTrue result → StandsFor self.new (start self.old.held first) }
        ensures history { (h : History)
            → IsLegal h
            → record_of h ≡ self.old.held
            → next h ≡ first
            → IsTrue result × StandsFor self.new h }
    {
        if !suits(&self.holdings, first) {
            return false;
        }
        self.holdings.set_next(first);
        true
    }
}
