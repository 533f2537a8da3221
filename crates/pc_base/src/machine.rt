//! What a store keeps the history of.

ghost use Rattle.std.specs.Prelude.{◌≡◌, ℕ, ◌+◌, ◌^◌, ◌<◌, ◌≤◌, Bool, true, if◌then◌else◌, List, ◌++◌, length, Option, IfSome, IfOk, OnOk};
ghost use Rattle.pc_base.specs.Machine.{FaultAt, IsNumbered};

use crate::bytes::Bytes;
use crate::failure::{Memory, ReadFault};
use std::alloc::Global;

/// A state that entries change, each by a rule. A store keeps its record and the entries since.
///
/// Entries have numbers that rise by one. A machine may keep the number of its next entry; its
/// record doesn't hold it.
pub trait Machine: Drop {
    /// What changes the state.
    type Entry: Drop;

    /// Which machine it is, in a store: from 1 to 3.
    const KIND: u8;

    ghost KIND: { ℕ };

    /// The state of no history.
    ghost begin: { Self };

    /// The state allows the entry.
    ghost can: { Self → Self.Entry → Bool };

    /// The state after the entry.
    ghost step: { Self → Self.Entry → Self };

    /// The number of the next entry, where the machine keeps it.
    ghost next: { Self → Option ℕ };

    /// The state is one to which allowed entries lead, from that of no history or from a record.
    ghost is_legal: { Self → Type 0 };

    /// The entry's lengths and counts fit their fields.
    ghost fits: { Self.Entry → Type 0 };

    /// The bytes of an entry that fits.
    ghost written: { Self.Entry → List ℕ };

    /// The bytes are no entry, and this is the place of the first field at which none goes on.
    ghost entry_fault: { List ℕ → ℕ → Type 0 };

    /// The state is what a record may hold, whatever the number of its next entry.
    ghost is_canonical: { Self → Type 0 };

    /// The record of a state.
    ghost saved: { Self → List ℕ };

    /// The bytes are no record, and this is the place of the first field at which none goes on.
    ghost record_fault: { List ℕ → ℕ → Type 0 };

    /// The next entry may have this number.
    ghost suits: { Self → ℕ → Bool };

    /// The state whose next entry has this number.
    ghost numbered: { Self → ℕ → Self };

    /// The state of no history.
    fn empty(alloc: Global) -> Result<Self, Memory>
        ensures { IfOk result (λ state. state ≡ begin) };

    /// Whether the state allows the entry.
    fn allows(&self, entry: &Self::Entry) -> bool
        ensures { result ≡ can self.now entry.now };

    /// Makes the entry. After `Memory` the state isn't used again.
    fn apply(&mut self, alloc: Global, entry: &Self::Entry) -> Result<(), Memory>
        requires allowed { can self.old entry.now ≡ true }
        requires number { IfSome (next self.old) (λ number. number < 2 ^ 63) }
        ensures { OnOk result (self.new ≡ step self.old entry.now) };

    /// Appends the record of the state. After `Memory` nothing is known of what was appended.
    fn save(&self, out: &mut Bytes) -> Result<(), Memory>
        ensures { OnOk result (out.new ≡ out.old ++ saved self.now) };

    /// Reads a record. `Malformed` names the first field at which no record goes on.
    fn load(alloc: Global, bytes: &[u8]) -> Result<Self, ReadFault>
        ensures found { IfOk result (λ state. is_canonical state × (saved state ≡ bytes.now)) }
        ensures fault { FaultAt result (record_fault bytes.now) }
        ensures within { FaultAt result (λ place. place ≤ length bytes.now) };

    /// Gives a state that was just made or loaded the number of its next entry, and answers whether
    /// it suits; if not, nothing changes.
    fn number_from(&mut self, first: u64) -> bool
        requires some { 0 < first }
        requires most { first ≤ 2 ^ 63 }
        ensures answer { result ≡ suits self.old first }
        ensures state { self.new ≡ (if suits self.old first then numbered self.old first else self.old) };

    /// Appends the bytes of the entry. After `Memory` nothing is known of what was appended.
    fn write_entry(entry: &Self::Entry, out: &mut Bytes) -> Result<(), Memory>
        requires { fits entry.now }
        ensures { OnOk result (out.new ≡ out.old ++ written entry.now) };

    /// Reads an entry. `Malformed` names the first field at which no entry goes on.
    fn read_entry(alloc: Global, bytes: &[u8]) -> Result<Self::Entry, ReadFault>
        ensures found { IfOk result (λ entry. fits entry × (written entry ≡ bytes.now)) }
        ensures fault { FaultAt result (entry_fault bytes.now) }
        ensures within { FaultAt result (λ place. place ≤ length bytes.now) };

    ghost kinds: { (1 ≤ KIND) × (KIND ≤ 3) };

    /// An allowed entry fits, and is written in 1 to 8,388,608 bytes.
    ghost allowed_fits: { (state : Self) (entry : Self.Entry) → is_legal state → can state entry ≡ true → fits entry };

    ghost entry_size: { (state : Self) (entry : Self.Entry) → is_legal state → can state entry ≡ true → (1 ≤ length (written entry)) × (length (written entry) ≤ 8388608) };

    /// No bytes are read as two entries, and those of an entry aren't refused.
    ghost one_entry: { (entry other : Self.Entry) → fits entry → fits other → written entry ≡ written other → entry ≡ other };

    ghost entry_is_read: { (entry : Self.Entry) (place : ℕ) → fits entry → entry_fault (written entry) place → ⊥ };

    ghost one_entry_fault: { (bytes : List ℕ) (place other : ℕ) → entry_fault bytes place → entry_fault bytes other → place ≡ other };

    /// The state of no history suits each number.
    ghost begin_is_canonical: { is_canonical begin };

    ghost begin_suits: { (first : ℕ) → 0 < first → suits begin first ≡ true };

    /// A state that got a number that suits it is legal, and has this number.
    ghost numbered_is_legal: { (state : Self) (first : ℕ) → is_canonical state → suits state first ≡ true → is_legal (numbered state first) };

    ghost numbered_next: { (state : Self) (first : ℕ) → IsNumbered (next (numbered state first)) first };

    ghost numbered_saved: { (state : Self) (first : ℕ) → saved (numbered state first) ≡ saved state };

    /// Allowed entries lead from legal states to legal states, and the number rises by one.
    ghost step_is_legal: { (state : Self) (entry : Self.Entry) → is_legal state → can state entry ≡ true → IfSome (next state) (λ number. number < 2 ^ 63) → is_legal (step state entry) };

    ghost step_next: { (state : Self) (entry : Self.Entry) (number : ℕ) → is_legal state → can state entry ≡ true → IsNumbered (next state) number → IsNumbered (next (step state entry)) (number + 1) };

    /// A legal state has a record of at most 1,073,741,824 bytes, which isn't refused. It is the
    /// state's alone: what is loaded from these bytes is the state, once it has its number.
    ghost legal_is_canonical: { (state : Self) → is_legal state → is_canonical state };

    ghost record_size: { (state : Self) → is_legal state → length (saved state) ≤ 1073741824 };

    ghost record_is_read: { (state : Self) (place : ℕ) → is_canonical state → record_fault (saved state) place → ⊥ };

    ghost one_record_fault: { (bytes : List ℕ) (place other : ℕ) → record_fault bytes place → record_fault bytes other → place ≡ other };

    ghost one_record: { (state loaded : Self) (number : ℕ) → is_legal state → IsNumbered (next state) number → is_canonical loaded → saved loaded ≡ saved state → (suits loaded number ≡ true) × (numbered loaded number ≡ state) };
}
