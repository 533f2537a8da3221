//! Steps: a device call and its sync, after which the disk is settled.

ghost use Rattle.std.specs.Prelude.{◌≡◌, ◌+◌, ◌<◌, ◌≤◌, length, take, OnOk, OnErr};
ghost use Rattle.pc_base.specs.Stream.{Rose};
ghost use Rattle.pc_disk.specs.Images.{area_of, with_area, overwritten, Torn, TornCut, InArea};
ghost use Rattle.pc_disk.specs.Outcomes.{Only, LeavesOnly, SameDue};
ghost use Rattle.pc_disk.specs.Steps.{step_calls};
ghost use Rattle.pc_disk.specs.StepFaults.{FailsWhereDue, LeadsOn};

use crate::disk::Disk;

/// Which call of a step failed. None followed it.
#[derive(Clone, Copy, Debug, PartialEq, Eq)]
pub enum StepFault {
    Call,
    Sync,
}

/// Writes and syncs. A crash at each moment leaves what it might have left before, or that with the
/// write torn.
pub fn put<D: Disk>(disk: &mut D, area: u8, at: u64, bytes: &[u8]) -> Result<(), StepFault>
    requires area { area < 2 }
    requires place { D.tells → at ≤ length (area_of area (D.seen disk.old)) }
    requires calls { 2 ≤ D.spare_calls disk.old }
    requires bytes { length bytes.now ≤ D.spare_bytes disk.old }
    ensures written { D.tells → OnOk result (D.seen disk.new ≡ with_area area (overwritten at bytes.now (area_of area (D.seen disk.old))) (D.seen disk.old)) }
    ensures settled { D.tells → OnOk result (Only (D.seen disk.new) (D.may_leave disk.new)) }
    ensures any_moment { D.tells → LeavesOnly D.moment D.left_since disk.old disk.new (LeadsOn (InArea area (Torn at (length bytes.now))) (D.may_leave disk.old)) }
    ensures moment { D.moment disk.new ≡ D.moment disk.old + step_calls result }
    ensures due { D.tells_due → FailsWhereDue result (D.moment disk.old) (D.due disk.old) }
    ensures ahead { D.tells_due → SameDue (D.moment disk.new) (D.due disk.old) (D.due disk.new) }
    ensures faults { D.faults disk.old ≤ D.faults disk.new }
    ensures cause { OnErr result (Rose (D.faults disk.old) (D.faults disk.new)) }
    ensures taken { D.taken disk.new ≡ D.taken disk.old }
    ensures spare_calls { D.spare_calls disk.old ≤ D.spare_calls disk.new + 2 }
    ensures spare_bytes { D.spare_bytes disk.old ≤ D.spare_bytes disk.new + length bytes.now }
{
    let Ok(()) = disk.write(area, at, bytes) else {
        return Err(StepFault::Call);
    };
    let Ok(()) = disk.sync() else {
        return Err(StepFault::Sync);
    };
    Ok(())
}

/// Cuts and syncs. A crash at each moment leaves what it might have left before, or that with the cut
/// torn.
pub fn trim<D: Disk>(disk: &mut D, area: u8, to: u64) -> Result<(), StepFault>
    requires area { area < 2 }
    requires place { D.tells → to ≤ length (area_of area (D.seen disk.old)) }
    requires calls { 2 ≤ D.spare_calls disk.old }
    ensures cut { D.tells → OnOk result (D.seen disk.new ≡ with_area area (take to (area_of area (D.seen disk.old))) (D.seen disk.old)) }
    ensures settled { D.tells → OnOk result (Only (D.seen disk.new) (D.may_leave disk.new)) }
    ensures any_moment { D.tells → LeavesOnly D.moment D.left_since disk.old disk.new (LeadsOn (InArea area (TornCut to)) (D.may_leave disk.old)) }
    ensures moment { D.moment disk.new ≡ D.moment disk.old + step_calls result }
    ensures due { D.tells_due → FailsWhereDue result (D.moment disk.old) (D.due disk.old) }
    ensures ahead { D.tells_due → SameDue (D.moment disk.new) (D.due disk.old) (D.due disk.new) }
    ensures faults { D.faults disk.old ≤ D.faults disk.new }
    ensures cause { OnErr result (Rose (D.faults disk.old) (D.faults disk.new)) }
    ensures taken { D.taken disk.new ≡ D.taken disk.old }
    ensures spare_calls { D.spare_calls disk.old ≤ D.spare_calls disk.new + 2 }
    ensures spare_bytes { D.spare_bytes disk.old ≤ D.spare_bytes disk.new }
{
    let Ok(()) = disk.cut(area, to) else {
        return Err(StepFault::Call);
    };
    let Ok(()) = disk.sync() else {
        return Err(StepFault::Sync);
    };
    Ok(())
}
