//! A small machine: it counts up to 200, and keeps the number of its next entry.

ghost use Rattle.std.specs.Prelude.{◌≡◌, ◌≤◌, ◌<◌, ◌+◌, ◌++◌, ◌∷◌, [], nat_lt, true, if◌then◌else◌, IfOk, OnOk, ℕ, IfSome, Some, ◌^◌};
ghost use Rattle.pc_base.specs.Machine.{FaultAt};

use pc_base::{Bytes, Machine, Memory, ReadFault};
use std::alloc::Global;

/// How many ticks there were.
#[derive(Clone, Copy, Debug, PartialEq, Eq)]
pub struct Tally {
    pub count: u8,
    pub next: u64,
}

/// One more.
#[derive(Clone, Copy, Debug, PartialEq, Eq)]
pub struct Tick {
    pub mark: u8,
}

impl Machine for Tally {
    ghost use Rattle.std.specs.Prelude.{◌≡◌, ◌≤◌, ◌<◌, ◌+◌, ◌∷◌, [], ℕ, nat_lt, Some};
    ghost use Rattle.std.proofs.Common.{arith, ap, sym, ◌∙◌, refl};
    ghost use Rattle.std.proofs.lemmas.Bool.Decides.{nat_tests};

    type Entry = Tick;

    const KIND: u8 = 2;

    ghost KIND = { 2 };

    ghost begin = { record { count = 0; next = 1 } };

    ghost can = { λ state _. nat_lt state.count 200 };

    ghost step = { λ state _. record { count = state.count + 1; next = state.next + 1 } };

    ghost next = { λ state. Some state.next };

    ghost is_legal = { λ state. (state.count ≤ 200) × (state.count < state.next) };

    ghost fits = { λ _. Unit {0} };

    ghost written = { λ entry. entry.mark ∷ [] };

    ghost entry_fault = { λ bytes place. (place ≡ 0) × ((mark : ℕ) → bytes ≡ mark ∷ [] → ⊥) };

    ghost is_canonical = { λ state. state.count ≤ 200 };

    ghost saved = { λ state. state.count ∷ [] };

    ghost record_fault = { λ bytes place. (place ≡ 0) × ((count : ℕ) → count ≤ 200 → bytes ≡ count ∷ [] → ⊥) };

    ghost suits = { λ state number. nat_lt state.count number };

    ghost numbered = { λ state number. record state { next = number } };

    ghost kinds = { (Prim.omega arith, Prim.omega arith) };

    ghost allowed_fits = { λ _ _ _ _. tt };

    ghost entry_size = { λ _ _ _ _. (Prim.omega arith, Prim.omega arith) };

    ghost one_entry = { λ entry other _ _ same. ap (λ (mark : ℕ). record entry { mark = mark }) (let mark : entry.mark ≡ other.mark = Prim.cc in mark) };

    ghost entry_is_read = { λ entry _ _ fault. fault.1 entry.mark refl };

    ghost one_entry_fault = { λ _ _ _ fault other. fault.0 ∙ sym other.0 };

    ghost begin_is_canonical = { Prim.omega arith };

    ghost begin_suits = { λ first some. Prim.grind (arith, nat_tests) };

    ghost numbered_is_legal = { λ state first canonical suits. (canonical, Prim.grind (arith, nat_tests)) };

    ghost numbered_next = { λ _ _. refl };

    ghost numbered_saved = { λ _ _. refl };

    ghost step_is_legal = { λ state entry legal allowed within. (Prim.grind (arith, nat_tests, legal.0, legal.1), Prim.omega (arith, legal.1)) };

    ghost step_next = { λ state entry number legal allowed is. Prim.omega arith };

    ghost legal_is_canonical = { λ _ legal. legal.0 };

    ghost record_size = { λ _ _. Prim.omega arith };

    ghost record_is_read = { λ state _ canonical fault. fault.1 state.count canonical refl };

    ghost one_record_fault = { λ _ _ _ fault other. fault.0 ∙ sym other.0 };

    ghost one_record = { λ state loaded number legal is canonical same. let count : loaded.count ≡ state.count = Prim.cc in (Prim.grind (arith, nat_tests, count, is, legal.1), ap (λ (count : ℕ). record state { count = count; next = number }) count ∙ ap (λ (next : ℕ). record state { next = next }) (sym is)) };

    fn empty(_alloc: Global) -> Result<Tally, Memory> {
        Ok(Tally { count: 0, next: 1 })
    }

    fn allows(&self, _entry: &Tick) -> bool {
        self.count < 200
    }

    fn apply(&mut self, _alloc: Global, _entry: &Tick) -> Result<(), Memory> {
        self.count += 1;
        self.next += 1;
        Ok(())
    }

    fn save(&self, out: &mut Bytes) -> Result<(), Memory> {
        out.append(&[self.count])
    }

    fn load(_alloc: Global, bytes: &[u8]) -> Result<Tally, ReadFault> {
        match bytes {
            [count] if *count <= 200 => Ok(Tally {
                count: *count,
                next: 1,
            }),
            _ => Err(ReadFault::Malformed { place: 0 }),
        }
    }

    fn number_from(&mut self, first: u64) -> bool {
        if u64::from(self.count) >= first {
            return false;
        }
        self.next = first;
        true
    }

    fn write_entry(entry: &Tick, out: &mut Bytes) -> Result<(), Memory> {
        out.append(&[entry.mark])
    }

    fn read_entry(_alloc: Global, bytes: &[u8]) -> Result<Tick, ReadFault> {
        match bytes {
            [mark] => Ok(Tick { mark: *mark }),
            _ => Err(ReadFault::Malformed { place: 0 }),
        }
    }
}
