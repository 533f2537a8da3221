//! The record of device calls.

ghost use Rattle.std.specs.Prelude.{◌≡◌, ℕ, ◌+◌, ◌<◌, ◌≤◌, [], ◌∷◌, ◌++◌, length, vec_len, OnOk};
ghost use Rattle.std.specs.Vec.{vec_capacity};
ghost use Rattle.pc_disk.specs.Deeds.{Write, Cut, Sync, deed_of, chosen, Fits};
ghost use Rattle.pc_disk.specs.Areas.{held, room};

use crate::areas::Areas;
use crate::choice::Choice;
use crate::fate::Fate;
use crate::note::{Note, NotedCall};
use crate::replay::{pend, replay};
use pc_base::Memory;
use std::alloc::Global;
use std::marker::Model;

/// The device calls of a disk, in order, with what became of each.
#[derive(Drop)]
pub struct Deeds {
    notes: Vec<Note>,
    pool: Vec<u8>,
    settled: usize,
}

impl Model for Deeds {
    ghost use Rattle.std.specs.Prelude.{vec_len};
    ghost use Rattle.std.specs.Vec.{vec_capacity};
    ghost use Rattle.pc_disk.specs.Notes.{Noted, told, AreNoted};

    ghost Value = { Noted };

    ghost view = { λ d. record { deeds = told d.pool.items d.notes.items; written = vec_len d.pool; call_room = vec_capacity d.notes; byte_room = vec_capacity d.pool } };

    ghost invariant = { λ d. AreNoted d.pool.items d.notes.items d.settled };
}

#[tactic(auto, using(crate::proofs::NoteLemmas::length_told, crate::proofs::NoteLemmas::told_push))]
impl Deeds {
    pub fn new(alloc: Global) -> Deeds
        ensures deeds { result.deeds ≡ [] }
        ensures written { result.written ≡ 0 }
    {
        Deeds {
            notes: Vec::new(alloc),
            pool: Vec::new(alloc),
            settled: 0,
        }
    }

    /// Makes room for so many calls and written bytes more.
    pub fn reserve(&mut self, calls: usize, bytes: usize) -> Result<(), Memory>
        ensures deeds { self.new.deeds ≡ self.old.deeds }
        ensures written { self.new.written ≡ self.old.written }
        ensures call_room { self.old.call_room ≤ self.new.call_room }
        ensures byte_room { self.old.byte_room ≤ self.new.byte_room }
        ensures calls { OnOk result (length self.new.deeds + calls ≤ self.new.call_room) }
        ensures bytes { OnOk result (self.new.written + bytes ≤ self.new.byte_room) }
    {
        self.notes.reserve(calls)?;
        self.pool.reserve(bytes)?;
        Ok(())
    }

    /// Notes a write.
    pub fn push_write(&mut self, fate: Fate, area: u8, at: usize, bytes: &[u8])
        requires calls { length self.old.deeds < self.old.call_room }
        requires bytes { self.old.written + length bytes.now ≤ self.old.byte_room }
        ensures deeds { self.new.deeds ≡ deed_of fate (Write area at bytes.now) ∷ self.old.deeds }
        ensures written { self.new.written ≡ self.old.written + length bytes.now }
        ensures call_room { self.old.call_room ≤ self.new.call_room }
        ensures byte_room { self.old.byte_room ≤ self.new.byte_room }
    {
        let call = NotedCall::Write {
            area,
            at,
            start: self.pool.len(),
            count: bytes.len(),
        };
        let Ok(()) = self.pool.extend_from_slice(bytes) else {
            unreachable!()
        };
        let Ok(()) = self.notes.push(Note { fate, call }) else {
            unreachable!()
        };
    }

    /// Notes a cut.
    pub fn push_cut(&mut self, fate: Fate, area: u8, to: usize)
        requires { length self.old.deeds < self.old.call_room }
        ensures deeds { self.new.deeds ≡ deed_of fate (Cut area to) ∷ self.old.deeds }
        ensures written { self.new.written ≡ self.old.written }
        ensures call_room { self.old.call_room ≤ self.new.call_room }
        ensures byte_room { self.old.byte_room ≤ self.new.byte_room }
    {
        let call = NotedCall::Cut { area, to };
        let Ok(()) = self.notes.push(Note { fate, call }) else {
            unreachable!()
        };
    }

    /// Notes a sync.
    pub fn push_sync(&mut self, fate: Fate)
        requires { length self.old.deeds < self.old.call_room }
        ensures deeds { self.new.deeds ≡ deed_of fate Sync ∷ self.old.deeds }
        ensures written { self.new.written ≡ self.old.written }
        ensures call_room { self.old.call_room ≤ self.new.call_room }
        ensures byte_room { self.old.byte_room ≤ self.new.byte_room }
    {
        let call = NotedCall::Sync;
        let Ok(()) = self.notes.push(Note { fate, call }) else {
            unreachable!()
        };
        if let Fate::Made = fate {
            self.settled = self.notes.len();
        }
    }

    /// Makes of what stood at first what a crash leaves by this choice.
    pub fn crash(&self, choice: Choice, areas: &mut Areas)
        requires { Fits (room areas.old) self.now.deeds }
        ensures held { held areas.new ≡ chosen choice (held areas.old) self.now.deeds }
        ensures room { room areas.old ≤ room areas.new }
    {
        let (synced, rest) = self.notes.as_slice().split_at(self.settled);
        replay(synced, &self.pool, areas);
        pend(rest, &self.pool, choice, areas);
    }

    /// Forgets all of them.
    pub fn clear(&mut self)
        ensures deeds { self.new.deeds ≡ [] }
        ensures written { self.new.written ≡ 0 }
        ensures call_room { self.old.call_room ≤ self.new.call_room }
        ensures byte_room { self.old.byte_room ≤ self.new.byte_room }
    {
        self.notes.clear();
        self.pool.clear();
        self.settled = 0;
    }
}
