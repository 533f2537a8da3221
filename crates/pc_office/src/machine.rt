//! The office as a machine, of which a store keeps the history.

use crate::office::Office;
use pc_base::{Bytes, Machine, Memory, ReadFault};
use pc_office_history::OfficeEntry;
use std::alloc::Global;

impl Machine for Office {
    ghost use Rattle.std.specs.Prelude.{true, None, IsTrue};
    ghost use Rattle.std.proofs.Common.{arith, refl};
    ghost use Rattle.pc_office_history.specs.Record.{empty_record};
    ghost use Rattle.pc_office_history.specs.Step.{after};
    ghost use Rattle.pc_office_spelling.specs.Spelling.{spelled_entry};
    ghost use Rattle.pc_office_spelling.specs.EntryForm.{entry_fits, IsEntryFault};
    ghost use Rattle.pc_office_spelling.specs.RecordForm.{CanBeSaved, IsRecordFault};
    ghost use Rattle.pc_office_spelling.specs.RecordSpelling.{spelled_record};
    ghost use Rattle.pc_office_spelling.proofs.EntryLaws.{one-entry, entry-is-read, one-entry-fault};
    ghost use Rattle.pc_office_spelling.proofs.RecordLaws.{record-is-read, one-record-fault, record-is-short};
    ghost use Rattle.pc_office.specs.Machine.{accepts};
    ghost use Rattle.pc_office.specs.Following as following;

    type Entry = OfficeEntry;

    const KIND: u8 = 2;

    ghost KIND = { 2 };

    ghost begin = { empty_record };

    ghost can = { accepts };

    ghost step = { after };

    ghost next = { λ _. None };

    ghost is_legal = { CanBeSaved };

    ghost fits = { λ entry. IsTrue (entry_fits entry) };

    ghost written = { spelled_entry };

    ghost entry_fault = { IsEntryFault };

    ghost is_canonical = { CanBeSaved };

    ghost saved = { spelled_record };

    ghost record_fault = { IsRecordFault };

    ghost suits = { λ _ _. true };

    ghost numbered = { λ office _. office };

    ghost kinds = { (Prim.omega arith, Prim.omega arith) };

    ghost allowed_fits = { λ office entry _ accepted. (following.accepts-parts office entry accepted).1 };

    ghost entry_size = { λ office entry _ accepted. following.accepted_is_short office entry accepted };

    ghost one_entry = { one-entry };

    ghost entry_is_read = { entry-is-read };

    ghost one_entry_fault = { one-entry-fault };

    ghost begin_is_canonical = { following.begin_is_canonical };

    ghost begin_suits = { λ _ _. refl };

    ghost numbered_is_legal = { λ _ _ canonical _. canonical };

    ghost numbered_next = { λ _ _. tt };

    ghost numbered_saved = { λ _ _. refl };

    ghost step_is_legal = { λ office entry legal accepted _. following.step_is_legal office entry legal accepted };

    ghost step_next = { λ _ _ _ _ _ _. tt };

    ghost legal_is_canonical = { λ _ legal. legal };

    ghost record_size = { record-is-short };

    ghost record_is_read = { record-is-read };

    ghost one_record_fault = { one-record-fault };

    ghost one_record = { λ office loaded _ legal _ canonical same. (refl, following.one_state office loaded legal canonical same) };

    fn empty(alloc: Global) -> Result<Office, Memory> {
        Office::empty(alloc)
    }

    fn allows(&self, entry: &OfficeEntry) -> bool {
        Office::allows(self, entry) && pc_office_spelling::fits(entry)
    }

    fn apply(&mut self, alloc: Global, entry: &OfficeEntry) -> Result<(), Memory> {
        Office::apply(self, alloc, entry)
    }

    fn save(&self, out: &mut Bytes) -> Result<(), Memory> {
        Office::save(self, out)
    }

    fn load(alloc: Global, bytes: &[u8]) -> Result<Office, ReadFault> {
        Office::load(alloc, bytes)
    }

    fn number_from(&mut self, first: u64) -> bool {
        Office::number_from(self, first)
    }

    fn write_entry(entry: &OfficeEntry, out: &mut Bytes) -> Result<(), Memory> {
        pc_office_spelling::write_entry(entry, out)
    }

    fn read_entry(alloc: Global, bytes: &[u8]) -> Result<OfficeEntry, ReadFault> {
        pc_office_spelling::read_entry(alloc, bytes)
    }
}
