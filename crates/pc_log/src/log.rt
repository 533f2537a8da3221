//! The log itself.

ghost use Rattle.std.specs.Prelude.{◌≡◌, ◌⊎◌, ℕ, List, ◌+◌, ◌^◌, ◌<◌, ◌≤◌, [], ◌∷◌, ◌++◌, length, IfOk, IfErr, OnOk, OnErr};
ghost use Rattle.pc_base.specs.Stream.{Rose};
ghost use Rattle.pc_disk.specs.Images.{area_of, other_of, with_area, InArea};
ghost use Rattle.pc_disk.specs.Outcomes.{Only, LeavesFirst, LeavesOnly, SameDue};
ghost use Rattle.pc_disk.specs.StepFaults.{LeadsOn};
ghost use Rattle.pc_disk.specs.Steps.{step_calls};
ghost use Rattle.pc_log.specs.Area.{Head, fresh, IsHead, IsTrail, Spelled};
ghost use Rattle.pc_log.specs.Logs.{IsPrepared, Stands, Without, WithOrWithout, append_calls, FailsAtFirstDue};
ghost use Rattle.pc_log.specs.Making.{OldUnmadeOrNew, clear_calls, MakingFails};
ghost use Rattle.pc_log.specs.Opening.{OnDevice, OnMemory, IfMalformed, IsAreaOf, FindsAll, Finds, FindsFault, IfFound};
ghost use Rattle.pc_log.specs.Untouched.{Untouched};

use crate::create::{clear, fill, spell};
use crate::fault::{AppendFault, LogFault};
use crate::found::{Found, PlacedEntry, Start};
use crate::opening::Opening;
use pc_base::{Bytes, Memory};
use pc_disk::{Disk, StepFault, put};
use std::alloc::Global;
use std::marker::Model;

/// An area that is open for appending. It knows where its closed gate stands.
#[derive(Drop)]
pub struct Log {
    area: u8,
    gate: u64,
}

impl Model for Log {
    ghost use Rattle.std.specs.Prelude.{◌<◌};
    ghost use Rattle.pc_log.specs.Logs.{LogState};

    ghost Value = { LogState };

    ghost view = { λ l. record { area = l.area; gate = l.gate } };

    ghost invariant = { λ l. l.area < 2 };
}

impl Log {
    /// Makes an area anew, over whatever stands there: with this head, no entry, and a closed gate at its
    /// end. `kind` is 1 for an account, 2 for an office, 3 for a cache. It never answers `Malformed`,
    /// and `Memory` before any device call.
    pub fn create<D: Disk>(
        alloc: Global,
        disk: &mut D,
        area: u8,
        kind: u8,
        generation: u64,
        first: u64,
        base: &[u8],
    ) -> Result<Log, LogFault>
        requires area { area < 2 }
        requires head { IsHead (record { kind = kind; generation = generation; first = first; base = base.now }) }

        // What is read then, and all that a crash then leaves.
        ensures made { D.tells → OnOk result (D.seen disk.new ≡ with_area area (fresh (record { kind = kind; generation = generation; first = first; base = base.now })) (D.seen disk.old)) }
        ensures settled { D.tells → OnOk result (Only (D.seen disk.new) (D.may_leave disk.new)) }
        ensures log { IfOk result (λ log. log ≡ record { area = area; gate = 30 + length base.now }) }
        ensures stands { D.tells → IfOk result (λ log. Stands log (record { kind = kind; generation = generation; first = first; base = base.now }) [] (D.seen disk.new) (D.may_leave disk.new)) }

        // Over a settled disk a crash at any moment leaves the old area, one that isn't made, or the new one
        // whole.
        ensures any_moment { D.tells → Only (D.seen disk.old) (D.may_leave disk.old) → LeavesOnly D.moment D.left_since disk.old disk.new (InArea area (OldUnmadeOrNew (record { kind = kind; generation = generation; first = first; base = base.now })) (D.seen disk.old)) }

        // It makes the device calls that take away what stands, and four more; or those up to the one that
        // failed.
        ensures calls { D.tells → OnOk result (D.moment disk.new ≡ D.moment disk.old + clear_calls (area_of area (D.seen disk.old)) + 4) }
        ensures later { D.moment disk.old ≤ D.moment disk.new }
        ensures most_calls { D.tells → D.moment disk.new ≤ D.moment disk.old + clear_calls (area_of area (D.seen disk.old)) + 4 }
        ensures due { D.tells_due → MakingFails result (D.moment disk.old) (D.moment disk.new) (D.due disk.old) (D.taken disk.old) }
        ensures ahead { D.tells_due → SameDue (D.moment disk.new) (D.due disk.old) (D.due disk.new) }

        ensures well_formed { IfMalformed result (λ place. ⊥) }
        ensures memory { OnMemory result (Untouched D.Disk.own disk.old disk.new) }
        ensures faults { D.faults disk.old ≤ D.faults disk.new }
        ensures cause { OnDevice result (Rose (D.faults disk.old) (D.faults disk.new)) }

        // It reads a byte.
        ensures taken { D.taken disk.new ≤ D.taken disk.old + 1 }
    {
        let bytes = spell(alloc, kind, generation, first, base)?;
        disk.reserve(area, bytes.len() as u64)?;
        clear(disk, area)?;
        fill(disk, area, &bytes)?;
        Ok(Log {
            area,
            gate: bytes.len() as u64,
        })
    }

    /// Reads an area whole. `Malformed` tells the first fault from the left.
    pub fn open_log<D: Disk>(
        alloc: Global,
        disk: &mut D,
        area: u8,
        kind: u8,
    ) -> Result<Found, LogFault>
        requires { area < 2 }

        // What is found stands there.
        ensures found { D.tells → Finds result area kind (area_of area (D.seen disk.old)) }

        // What stands there is found.
        ensures only { D.tells → (head : Head) (entries : List (List ℕ)) → IsAreaOf kind head entries (area_of area (D.seen disk.old)) → FindsAll result head entries }

        // A fault is the first.
        ensures fault { D.tells → IfMalformed result (FindsFault kind (area_of area (D.seen disk.old))) }

        ensures untouched { Untouched D.Disk.own disk.old disk.new }
        ensures cause { OnDevice result (Rose (D.faults disk.old) (D.faults disk.new)) }

        // It reads little more than the area up to its closed gate; and where it is refused no more than
        // the longest area has.
        ensures taken { IfFound result (λ log. D.taken disk.new ≤ D.taken disk.old + log.gate + 5) }
        ensures most_taken { D.taken disk.new ≤ D.taken disk.old + 2 ^ 31 }
    {
        Log::read_log(alloc, disk, area, kind)
    }

    /// The area.
    pub fn area(&self) -> u8
        ensures area { result ≡ self.now.area }
        ensures within { result < 2 }
    {
        self.area
    }

    /// Makes room on the disk for an entry of this many bytes. Nothing else changes, whatever it answers.
    pub fn prepare<D: Disk>(&self, disk: &mut D, length: u32) -> Result<(), Memory>
        ensures stands { D.tells → (head : Head) (entries : List (List ℕ)) → Stands self.now head entries (D.seen disk.old) (D.may_leave disk.old) → Stands self.now head entries (D.seen disk.new) (D.may_leave disk.new) }
        ensures prepared { OnOk result (IsPrepared self.now length (D.spare_calls disk.new) (D.spare_bytes disk.new)) }
        ensures untouched { Untouched D.Disk.own disk.old disk.new }
        ensures taken { D.taken disk.new ≡ D.taken disk.old }
    {
        let Some(upto) = self.gate.checked_add(u64::from(length) + 6) else {
            return Err(Memory);
        };
        disk.reserve(self.area, upto)
    }

    /// Appends an entry: writes its record behind the closed gate, syncs, opens the gate, syncs. It takes
    /// no memory. After `Err` the log isn't to be used: open the area again.
    pub fn append<D: Disk>(&mut self, disk: &mut D, bytes: &Bytes) -> Result<(), AppendFault>
        requires stands { D.tells → (head : Head) × (entries : List (List ℕ)) × Stands self.old head entries (D.seen disk.old) (D.may_leave disk.old) }
        requires size { (1 ≤ length bytes.now) × (length bytes.now ≤ 8388608) }
        requires prepared { IsPrepared self.old (length bytes.now) (D.spare_calls disk.old) (D.spare_bytes disk.old) }

        // After Ok the entry stands in what a read gives and in all that a crash leaves.
        ensures stands { D.tells → (head : Head) (entries : List (List ℕ)) → Stands self.old head entries (D.seen disk.old) (D.may_leave disk.old) → OnOk result (Stands self.new head (entries ++ bytes.now ∷ []) (D.seen disk.new) (D.may_leave disk.new)) }
        ensures settled { D.tells → OnOk result (Only (D.seen disk.new) (D.may_leave disk.new)) }
        ensures other_area { D.tells → OnOk result (other_of self.old.area (D.seen disk.new) ≡ other_of self.old.area (D.seen disk.old)) }

        // A crash at any moment leaves the entries before it, with the new one as a whole or without it; and
        // without it up to the second device call.
        ensures any_moment { D.tells → (head : Head) (entries : List (List ℕ)) → Stands self.old head entries (D.seen disk.old) (D.may_leave disk.old) → LeavesOnly D.moment D.left_since disk.old disk.new (LeadsOn (InArea self.old.area (WithOrWithout head entries bytes.now)) (D.may_leave disk.old)) }
        ensures first_two { D.tells → (head : Head) (entries : List (List ℕ)) → Stands self.old head entries (D.seen disk.old) (D.may_leave disk.old) → LeavesFirst D.moment D.left_since 2 disk.old disk.new (LeadsOn (InArea self.old.area (Without head entries)) (D.may_leave disk.old)) (LeadsOn (InArea self.old.area (WithOrWithout head entries bytes.now)) (D.may_leave disk.old)) }

        // It makes four device calls, or those up to the one that failed.
        ensures call { IfErr result (λ fault. (1 ≤ fault.call) × (fault.call ≤ 4)) }
        ensures calls { D.moment disk.new ≡ D.moment disk.old + append_calls result }
        ensures due { D.tells_due → FailsAtFirstDue result (D.moment disk.old) (D.due disk.old) }
        ensures ahead { D.tells_due → SameDue (D.moment disk.new) (D.due disk.old) (D.due disk.new) }
        ensures faults { D.faults disk.old ≤ D.faults disk.new }
        ensures cause { OnErr result (Rose (D.faults disk.old) (D.faults disk.new)) }
        ensures taken { D.taken disk.new ≡ D.taken disk.old }

        ensures err { OnErr result (self.new ≡ self.old) }
        ensures area { self.new.area ≡ self.old.area }
        ensures gate { OnOk result (self.new.gate ≡ self.old.gate + 5 + length bytes.now) }
        ensures spare_calls { D.spare_calls disk.old ≤ D.spare_calls disk.new + 4 }
        ensures spare_bytes { D.spare_bytes disk.old ≤ D.spare_bytes disk.new + length bytes.now + 6 }
    {
        let frame = bytes.framed();
        if let Err(fault) = put(disk, self.area, self.gate + 1, frame) {
            return Err(append_fault(0, fault));
        }
        if let Err(fault) = put(disk, self.area, self.gate, &[1]) {
            return Err(append_fault(2, fault));
        }
        self.gate += frame.len() as u64;
        Ok(())
    }

    // Reads the head and then the entries.
    fn read_log<D: Disk>(alloc: Global, disk: &mut D, area: u8, kind: u8) -> Result<Found, LogFault>
        requires { area < 2 }
        ensures found { D.tells → Finds result area kind (area_of area (D.seen disk.old)) }
        ensures fault { D.tells → IfMalformed result (FindsFault kind (area_of area (D.seen disk.old))) }
        ensures untouched { Untouched D.Disk.own disk.old disk.new }
        ensures cause { OnDevice result (Rose (D.faults disk.old) (D.faults disk.new)) }
        ensures taken { IfFound result (λ log. D.taken disk.new ≤ D.taken disk.old + log.gate + 5) }
        ensures most_taken { D.taken disk.new ≤ D.taken disk.old + 2 ^ 31 }
    {
        let start = Opening::start(alloc, disk, area, kind)?;
        let Start::Made {
            mut opening,
            generation,
            first,
            base,
        } = start
        else {
            return Ok(Found::NotMade);
        };
        let entries = opening.rest(alloc, disk)?;
        Ok(Found::Made {
            log: opening.into_log(),
            generation,
            first,
            base,
            entries,
        })
    }

    /// The log of an area whose closed gate stands here.
    pub(crate) fn at(area: u8, gate: u64) -> Log
        requires { area < 2 }
        ensures { result ≡ record { area = area; gate = gate } }
    {
        Log { area, gate }
    }
}

// The call of an append that failed, where so many were made before the step in which it failed.
fn append_fault(before: u8, fault: StepFault) -> AppendFault
    requires { before ≤ 2 }
    ensures call { result.call ≡ before + step_calls {T = ℕ} (Err fault) }
    ensures low { before < result.call }
    ensures high { result.call ≤ before + 2 }
{
    match fault {
        StepFault::Call => AppendFault { call: before + 1 },
        StepFault::Sync => AppendFault { call: before + 2 },
    }
}
