//! Folding: a new base in place of a history.

ghost use Rattle.std.specs.Prelude.{◌≡◌, ◌⊎◌, ℕ, ◌+◌, ◌-◌, ◌^◌, ◌<◌, ◌≤◌, false, List, [], length, OnOk};
ghost use Rattle.pc_base.specs.Stream.{Rose};
ghost use Rattle.pc_base.specs.CommitFault.{FullWhere, OnDevice, OnMemory};
ghost use Rattle.pc_disk.specs.Images.{Images, other_of};
ghost use Rattle.pc_disk.specs.Outcomes.{LeavesOnly, SameDue};
ghost use Rattle.pc_log.specs.Untouched.{Untouched};
ghost use Rattle.pc_store.specs.History.{IsHistory, IsReplay};
ghost use Rattle.pc_store.specs.Store.{Acknowledges};
ghost use Rattle.pc_store.specs.Fold.{OpensOldOrNew, RenewCalls, RenewFails, RenewLeaves, folded_head, is_last, next_head};

use crate::store::{Renewal, Store};
use pc_base::{Bytes, CommitFault, Machine};
use pc_disk::Disk;
use pc_log::{Log, LogFault};
use std::alloc::Global;

/// The greatest generation.
const LAST_GENERATION: u64 = (1 << 63) - 1;

impl<M: Machine, D: Disk + Drop> Store<M, D> {
    /// Puts the record of the state in place of the history, in the other area: the state and the numbers
    /// stay, and the trail is empty then. After `Device` the store is broken. After `Memory` all is as
    /// before.
    pub fn fold(&mut self, alloc: Global) -> Result<(), CommitFault>
        requires whole { self.old.broken ≡ false }
        ensures leaves { RenewLeaves (folded_head M.Machine.own self.old) result self.old self.new }
        ensures replay { OnOk result (IsReplay M.Machine.own self.new.head self.new.trail self.new.state) }
        ensures full { FullWhere result (is_last self.old) }
        ensures acknowledged { D.tells → OnOk result (Acknowledges M.Machine.own D.seen D.may_leave self.new) }

        // A crash at any moment leaves the history, or the record in place of it.
        ensures any_moment { D.tells → LeavesOnly D.moment D.left_since self.old.disk self.new.disk (OpensOldOrNew M.Machine.own self.old (folded_head M.Machine.own self.old)) }

        ensures memory { OnMemory result (Untouched D.Disk.own self.old.disk self.new.disk) }
        ensures calls { D.tells → RenewCalls result (other_of self.old.area (D.seen self.old.disk)) (D.moment self.old.disk) (D.moment self.new.disk) }
        ensures due { D.tells_due → RenewFails result (D.moment self.old.disk) (D.moment self.new.disk) (D.due self.old.disk) (D.taken self.old.disk) }
        ensures ahead { D.tells_due → SameDue (D.moment self.new.disk) (D.due self.old.disk) (D.due self.new.disk) }
        ensures faults { D.faults self.old.disk ≤ D.faults self.new.disk }
        ensures cause { OnDevice result (Rose (D.faults self.old.disk) (D.faults self.new.disk)) }

        // It reads a byte.
        ensures taken { D.taken self.new.disk ≤ D.taken self.old.disk + 1 }
    {
        prove!(!self.is_broken);
        let mut base = Bytes::new(alloc);
        self.state.save(&mut base)?;
        let first = self.next();
        self.renew(alloc, first, base)
    }

    // Begins anew in the other area, with this number of the first entry and this base, whose state is the
    // store's.
    fn renew(&mut self, alloc: Global, first: u64, base: Bytes) -> Result<(), CommitFault>
        requires whole { self.old.broken ≡ false }
        requires number { (1 ≤ first) × (first ≤ 2 ^ 63) }
        requires size { length base ≤ 1073741824 }
        requires history { IsHistory M.Machine.own (next_head M.Machine.own self.old first base) [] self.old.state }
        ensures leaves { RenewLeaves (next_head M.Machine.own self.old first base) result self.old self.new }
        ensures replay { OnOk result (IsReplay M.Machine.own self.new.head self.new.trail self.new.state) }
        ensures full { FullWhere result (is_last self.old) }
        ensures acknowledged { D.tells → OnOk result (Acknowledges M.Machine.own D.seen D.may_leave self.new) }
        ensures any_moment { D.tells → LeavesOnly D.moment D.left_since self.old.disk self.new.disk (OpensOldOrNew M.Machine.own self.old (next_head M.Machine.own self.old first base)) }
        ensures memory { OnMemory result (Untouched D.Disk.own self.old.disk self.new.disk) }
        ensures calls { D.tells → RenewCalls result (other_of self.old.area (D.seen self.old.disk)) (D.moment self.old.disk) (D.moment self.new.disk) }
        ensures due { D.tells_due → RenewFails result (D.moment self.old.disk) (D.moment self.new.disk) (D.due self.old.disk) (D.taken self.old.disk) }
        ensures ahead { D.tells_due → SameDue (D.moment self.new.disk) (D.due self.old.disk) (D.due self.new.disk) }
        ensures faults { D.faults self.old.disk ≤ D.faults self.new.disk }
        ensures cause { OnDevice result (Rose (D.faults self.old.disk) (D.faults self.new.disk)) }
        ensures taken { D.taken self.new.disk ≤ D.taken self.old.disk + 1 }
    {
        if self.generation == LAST_GENERATION {
            return Err(CommitFault::Full);
        }
        let kind = M::KIND;
        let generation = self.generation + 1;
        let area = 1 - self.log.area();
        let made = Log::create(
            alloc,
            &mut self.disk,
            area,
            kind,
            generation,
            first,
            base.as_slice(),
        );
        let log = match made {
            Ok(log) => log,
            Err(LogFault::Device) => {
                self.is_broken = true;
                self.renewal = Some(Renewal {
                    kind,
                    generation,
                    first,
                    base,
                });
                return Err(CommitFault::Device);
            }
            Err(LogFault::Malformed { place: _ }) => unreachable!(),
            Err(LogFault::Memory) => return Err(CommitFault::Memory),
        };
        self.log = log;
        self.generation = generation;
        self.first = first;
        self.base = base;
        self.trail = Vec::new(alloc);
        self.bytes = 0;
        Ok(())
    }
}
