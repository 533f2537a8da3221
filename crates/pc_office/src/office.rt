//! The post office.

ghost use Rattle.std.specs.Prelude.{◌≡◌, ℕ, ◌≤◌, ◌++◌, length, IsTrue, OnOk, OnErr, IfOk};
ghost use Rattle.pc_base.specs.Machine.{FaultAt};
ghost use Rattle.pc_office_spelling.specs.RecordForm.{CanBeSaved, IsRecordFault, fits_record};
ghost use Rattle.pc_office_spelling.specs.RecordSpelling.{spelled_record};
ghost use Rattle.pc_office_history.specs.Record.{empty_record};
ghost use Rattle.pc_office_history.specs.Known.{said_by};
ghost use Rattle.pc_office_history.specs.History.{History, start, ◌▹◌, new_office};
ghost use Rattle.pc_office_history.specs.Legal.{IsLegal};
ghost use Rattle.pc_office_history.specs.Step.{after, record_of};
ghost use Rattle.pc_office_holdings.specs.State.{StandsFor, may_follow};

use pc_base::{Bytes, Memory, ReadFault};
use pc_office_history::OfficeEntry;
use pc_office_holdings::Holdings;
use pc_office_records::{load, save};
use std::alloc::Global;
use std::marker::Model;

/// The post office. Contracts see the record of its history.
#[derive(Drop)]
pub struct Office {
    pub(crate) holdings: Holdings,
}

impl Model for Office {
    ghost use Rattle.pc_office_history.specs.Record.{OfficeRecord};
    ghost use Rattle.pc_office_holdings.specs.Held.{record_in};
    ghost use Rattle.pc_office_holdings.specs.State.{IsSound};

    ghost Value = { OfficeRecord };

    ghost view = { λ office. record_in office.holdings };

    ghost invariant = { λ office. IsSound office.holdings };
}

impl Office {
    /// An office without entries.
    pub fn empty(alloc: Global) -> Result<Office, Memory>
        ensures record { IfOk result (λ office. office ≡ empty_record) }
        ensures history { IfOk result (λ office. StandsFor office new_office) }
    {
        Ok(Office {
            holdings: Holdings::empty(alloc),
        })
    }

    /// Makes the step of an entry that may come next. After `Err` the office isn't used again; it is
    /// empty.
    pub fn apply(&mut self, alloc: Global, entry: &OfficeEntry) -> Result<(), Memory>
        requires { IsTrue (may_follow (said_by self.old) entry.now) }
        ensures ok { OnOk result (self.new ≡ after self.old entry.now) }
        ensures history { (h : History) → StandsFor self.old h → OnOk result (StandsFor self.new (h ▹ entry.now)) }
        ensures err { OnErr result (self.new ≡ empty_record) }
    {
        if self.holdings.step(alloc, entry).is_err() {
            self.holdings = Holdings::empty(alloc);
            return Err(Memory);
        }
        Ok(())
    }

    /// Appends the record of the office. After `Err` nothing is known of what was appended.
    pub fn save(&self, out: &mut Bytes) -> Result<(), Memory>
        ensures { OnOk result (out.new ≡ out.old ++ spelled_record self.now) }
    {
        save(&self.holdings, out)
    }

    /// Reads the record of an office. `Malformed` names the first field at which no record goes on.
    /// What was saved of a legal history is loaded as an office that stands for that history.
    pub fn load(alloc: Global, bytes: &[u8]) -> Result<Office, ReadFault>
        ensures found { IfOk result (λ office. CanBeSaved office × (spelled_record office ≡ bytes.now)) }
        ensures base { (number : ℕ) → IfOk result (λ office. StandsFor office (start office number)) }
        ensures history { (h : History)
            → IsLegal h
            → IsTrue (fits_record (record_of h))
            → spelled_record (record_of h) ≡ bytes.now
            → IfOk result (λ office. StandsFor office h) }
        ensures fault { FaultAt result (IsRecordFault bytes.now) }
        ensures within { FaultAt result (λ place. place ≤ length bytes.now) }
    {
        match load(alloc, bytes) {
            Ok(holdings) => Ok(Office { holdings }),
            Err(fault) => Err(fault),
        }
    }

    /// Gives an office that was just made or loaded the number of its next entry. Each suits: what
    /// an office knows doesn't depend on it, and it stands for what it stood for.
    pub fn number_from(&mut self, first: u64) -> bool
        ensures answer { IsTrue result }
        ensures state { self.new ≡ self.old }
        ensures base { (number : ℕ) → StandsFor self.old (start self.old number) → StandsFor self.new (start self.new first) }
        ensures history { (h : History) → StandsFor self.old h → StandsFor self.new h }
    {
        true
    }
}
