//! Making an entry.

ghost use Rattle.std.specs.Prelude.{◌≡◌, ◌⊎◌, ℕ, ◌+◌, ◌-◌, ◌<◌, ◌≤◌, true, false, List, ◌∷◌, length, OnOk, vec_len, vec_capacity};
ghost use Rattle.pc_base.specs.Stream.{Rose};
ghost use Rattle.pc_base.specs.CommitFault.{FullWhere, OnDevice, OnMemory};
ghost use Rattle.pc_disk.specs.Images.{Images, other_of, InArea};
ghost use Rattle.pc_disk.specs.Outcomes.{LeavesFirst, LeavesOnly, SameDue};
ghost use Rattle.pc_disk.specs.StepFaults.{LeadsOn};
ghost use Rattle.pc_log.specs.Area.{Head};
ghost use Rattle.pc_log.specs.Logs.{IsPrepared, Stands};
ghost use Rattle.pc_log.specs.Untouched.{Untouched};
ghost use Rattle.pc_store.specs.History.{IsReplay};
ghost use Rattle.pc_store.specs.Store.{Acknowledges, next_number};
ghost use Rattle.pc_store.specs.Commit.{CommitCalls, CommitFailsWhereDue, CommitLeaves, StandsWithOrWithout, StandsWithout, doubt_after, is_full};

use crate::reading::LAST_NUMBER;
use crate::store::{MOST_BYTES, MOST_ENTRIES, Store};
use pc_base::{Bytes, CommitFault, Machine, Memory};
use pc_disk::Disk;
use pc_log::Log;
use std::alloc::Global;

/// The last device call of a commit before which no crash leaves the entry.
const CALLS_WITHOUT: u8 = 2;

impl<M: Machine, D: Disk + Drop> Store<M, D> {
    /// Makes an entry, and answers its number. After `Device` the store is broken. After `Memory` it is as
    /// before, or broken; no history has changed.
    pub fn commit(&mut self, alloc: Global, entry: M::Entry) -> Result<u64, CommitFault>
        requires allowed { M.can self.old.state entry ≡ true }
        requires whole { self.old.broken ≡ false }
        ensures leaves { CommitLeaves M.Machine.own entry result self.old self.new }
        ensures replay { OnOk result (IsReplay M.Machine.own self.new.head self.new.trail self.new.state) }
        ensures full { FullWhere result (is_full M.Machine.own self.old (length (M.written entry))) }
        ensures acknowledged { D.tells → OnOk result (Acknowledges M.Machine.own D.seen D.may_leave self.new) }

        // A crash at any moment leaves the history, with the entry as a whole or without it; and without it up
        // to the second device call.
        ensures any_moment { D.tells → LeavesOnly D.moment D.left_since self.old.disk self.new.disk (LeadsOn (InArea self.old.area (StandsWithOrWithout M.Machine.own self.old.head self.old.trail entry)) (D.may_leave self.old.disk)) }
        ensures first_two { D.tells → LeavesFirst D.moment D.left_since 2 self.old.disk self.new.disk (LeadsOn (InArea self.old.area (StandsWithout M.Machine.own self.old.head self.old.trail)) (D.may_leave self.old.disk)) (LeadsOn (InArea self.old.area (StandsWithOrWithout M.Machine.own self.old.head self.old.trail entry)) (D.may_leave self.old.disk)) }
        ensures other_area { D.tells → other_of self.old.area (D.seen self.new.disk) ≡ other_of self.old.area (D.seen self.old.disk) }

        ensures memory { OnMemory result (Untouched D.Disk.own self.old.disk self.new.disk) }
        ensures calls { CommitCalls result (D.moment self.old.disk) (D.moment self.new.disk) }
        ensures doubt { OnDevice result (self.new.doubt ≡ doubt_after entry (D.moment self.new.disk - D.moment self.old.disk)) }
        ensures due { D.tells_due → CommitFailsWhereDue result (D.moment self.old.disk) (D.moment self.new.disk) (D.due self.old.disk) }
        ensures ahead { D.tells_due → SameDue (D.moment self.new.disk) (D.due self.old.disk) (D.due self.new.disk) }
        ensures faults { D.faults self.old.disk ≤ D.faults self.new.disk }
        ensures cause { OnDevice result (Rose (D.faults self.old.disk) (D.faults self.new.disk)) }
        ensures taken { D.taken self.new.disk ≡ D.taken self.old.disk }
    {
        prove!(!self.is_broken);
        let mut bytes = Bytes::new(alloc);
        M::write_entry(&entry, &mut bytes)?;
        if self.is_full(bytes.as_slice().len() as u32) {
            return Err(CommitFault::Full);
        }
        self.enter(alloc, entry, &bytes)
    }

    // Makes an entry for which there is room within the limits, and whose bytes are these.
    fn enter(&mut self, alloc: Global, entry: M::Entry, bytes: &Bytes) -> Result<u64, CommitFault>
        requires allowed { M.can self.old.state entry ≡ true }
        requires whole { self.old.broken ≡ false }
        requires written { bytes.now ≡ M.written entry }
        requires size { (1 ≤ length bytes.now) × (length bytes.now ≤ 8388608) }
        requires room { is_full M.Machine.own self.old (length bytes.now) ≡ false }
        ensures leaves { CommitLeaves M.Machine.own entry result self.old self.new }
        ensures replay { OnOk result (IsReplay M.Machine.own self.new.head self.new.trail self.new.state) }
        ensures full { FullWhere result false }
        ensures acknowledged { D.tells → OnOk result (Acknowledges M.Machine.own D.seen D.may_leave self.new) }
        ensures any_moment { D.tells → LeavesOnly D.moment D.left_since self.old.disk self.new.disk (LeadsOn (InArea self.old.area (StandsWithOrWithout M.Machine.own self.old.head self.old.trail entry)) (D.may_leave self.old.disk)) }
        ensures first_two { D.tells → LeavesFirst D.moment D.left_since 2 self.old.disk self.new.disk (LeadsOn (InArea self.old.area (StandsWithout M.Machine.own self.old.head self.old.trail)) (D.may_leave self.old.disk)) (LeadsOn (InArea self.old.area (StandsWithOrWithout M.Machine.own self.old.head self.old.trail entry)) (D.may_leave self.old.disk)) }
        ensures other_area { D.tells → other_of self.old.area (D.seen self.new.disk) ≡ other_of self.old.area (D.seen self.old.disk) }
        ensures memory { OnMemory result (Untouched D.Disk.own self.old.disk self.new.disk) }
        ensures calls { CommitCalls result (D.moment self.old.disk) (D.moment self.new.disk) }
        ensures doubt { OnDevice result (self.new.doubt ≡ doubt_after entry (D.moment self.new.disk - D.moment self.old.disk)) }
        ensures due { D.tells_due → CommitFailsWhereDue result (D.moment self.old.disk) (D.moment self.new.disk) (D.due self.old.disk) }
        ensures ahead { D.tells_due → SameDue (D.moment self.new.disk) (D.due self.old.disk) (D.due self.new.disk) }
        ensures faults { D.faults self.old.disk ≤ D.faults self.new.disk }
        ensures cause { OnDevice result (Rose (D.faults self.old.disk) (D.faults self.new.disk)) }
        ensures taken { D.taken self.new.disk ≡ D.taken self.old.disk }
    {
        let number = self.next();
        let size = bytes.as_slice().len() as u32;
        make_room(&mut self.disk, &self.log, &mut self.trail, size)?;
        let Ok(()) = self.state.apply(alloc, &entry) else {
            self.is_broken = true;
            return Err(CommitFault::Memory);
        };
        if let Err(fault) = self.log.append(&mut self.disk, bytes) {
            self.is_broken = true;
            self.doubt = (fault.call > CALLS_WITHOUT).then_some(entry);
            return Err(CommitFault::Device);
        }
        let Ok(()) = self.trail.push(entry) else {
            unreachable!()
        };
        self.bytes += size;
        Ok(number)
    }

    // Whether an entry of so many bytes would pass a limit.
    fn is_full(&self, size: u32) -> bool
        ensures { result ≡ is_full M.Machine.own self.now size }
    {
        self.trail.len() as u64 >= u64::from(MOST_ENTRIES)
            || u64::from(self.bytes) + u64::from(size) > u64::from(MOST_BYTES)
            || self.next() > LAST_NUMBER
    }
}

/// Makes room for one entry more, of so many bytes: on the disk, and in the list of the entries.
fn make_room<E, D: Disk>(
    disk: &mut D,
    log: &Log,
    trail: &mut Vec<E>,
    size: u32,
) -> Result<(), Memory>
    ensures prepared { OnOk result (IsPrepared log.now size (D.spare_calls disk.new) (D.spare_bytes disk.new)) }
    ensures room { OnOk result (vec_len trail.new < vec_capacity trail.new) }
    ensures items { trail.new.items ≡ trail.old.items }
    ensures stands { D.tells → (head : Head) (entries : List (List ℕ)) → Stands log.now head entries (D.seen disk.old) (D.may_leave disk.old) → Stands log.now head entries (D.seen disk.new) (D.may_leave disk.new) }
    ensures untouched { Untouched D.Disk.own disk.old disk.new }
    ensures taken { D.taken disk.new ≡ D.taken disk.old }
{
    trail.reserve(1)?;
    log.prepare(disk, size)
}
