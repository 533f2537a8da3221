//! The account as a machine, of which a store keeps the history.

use crate::account::Account;
use pc_account_history::Entry;
use pc_base::{Bytes, Machine, Memory, ReadFault};
use std::alloc::Global;

impl Machine for Account {
    ghost use Rattle.std.specs.Prelude.{Some, IsTrue};
    ghost use Rattle.std.proofs.Common.{arith, refl};
    ghost use Rattle.pc_account_spelling.specs.Spelling.{spelled_entry, spelled_record};
    ghost use Rattle.pc_account_spelling.specs.EntryForm.{entry_fits, IsEntryFault};
    ghost use Rattle.pc_account_spelling.specs.RecordForm.{IsRecordFault};
    ghost use Rattle.pc_account_spelling.proofs.EntryLaws.{one-entry, entry-is-read, one-entry-fault};
    ghost use Rattle.pc_account_holdings.specs.State.{new_state, step as stepped};
    ghost use Rattle.pc_account_records.specs.Legal.{IsLegalState, IsCanonicalState, accepts};
    ghost use Rattle.pc_account_records.specs.Numbered.{suits as suited, numbered as renumbered};
    ghost use Rattle.pc_account_records.proofs.Following as following;
    ghost use Rattle.pc_account_records.specs.Recorded as recorded;

    type Entry = Entry;

    const KIND: u8 = 1;

    ghost KIND = { 1 };

    ghost begin = { new_state };

    ghost can = { accepts };

    ghost step = { stepped };

    ghost next = { λ state. Some state.next };

    ghost is_legal = { IsLegalState };

    ghost fits = { λ entry. IsTrue (entry_fits entry) };

    ghost written = { spelled_entry };

    ghost entry_fault = { IsEntryFault };

    ghost is_canonical = { IsCanonicalState };

    ghost saved = { λ state. spelled_record state.held };

    ghost record_fault = { IsRecordFault };

    ghost suits = { suited };

    ghost numbered = { renumbered };

    ghost kinds = { (Prim.omega arith, Prim.omega arith) };

    ghost allowed_fits = { λ state entry _ accepted. (following.accepts-parts state entry accepted).1 };

    ghost entry_size = { following.accepted_is_short };

    ghost one_entry = { one-entry };

    ghost entry_is_read = { entry-is-read };

    ghost one_entry_fault = { one-entry-fault };

    ghost begin_is_canonical = { recorded.begin_is_canonical };

    ghost begin_suits = { recorded.begin_suits };

    ghost numbered_is_legal = { recorded.numbered_is_legal };

    ghost numbered_next = { λ _ _. refl };

    ghost numbered_saved = { λ _ _. refl };

    ghost step_is_legal = { following.step_is_legal };

    ghost step_next = { λ _ _ _ _ _ is. Prim.omega (arith, is) };

    ghost legal_is_canonical = { recorded.legal_is_canonical };

    ghost record_size = { recorded.legal_record_size };

    ghost record_is_read = { recorded.state_is_read };

    ghost one_record_fault = { recorded.one_state_fault };

    ghost one_record = { recorded.one_state };

    fn empty(alloc: Global) -> Result<Account, Memory> {
        Account::empty(alloc)
    }

    fn allows(&self, entry: &Entry) -> bool {
        Account::allows(self, entry) && pc_account_spelling::fits(entry)
    }

    fn apply(&mut self, alloc: Global, entry: &Entry) -> Result<(), Memory> {
        Account::apply(self, alloc, entry)
    }

    fn save(&self, out: &mut Bytes) -> Result<(), Memory> {
        Account::save(self, out)
    }

    fn load(alloc: Global, bytes: &[u8]) -> Result<Account, ReadFault> {
        Account::load(alloc, bytes)
    }

    fn number_from(&mut self, first: u64) -> bool {
        Account::number_from(self, first)
    }

    fn write_entry(entry: &Entry, out: &mut Bytes) -> Result<(), Memory> {
        pc_account_spelling::write_entry(entry, out)
    }

    fn read_entry(alloc: Global, bytes: &[u8]) -> Result<Entry, ReadFault> {
        pc_account_spelling::read_entry(alloc, bytes)
    }
}
