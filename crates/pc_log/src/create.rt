//! Making an area anew.

ghost use Rattle.std.specs.Prelude.{◌≡◌, ◌⊎◌, ℕ, ◌+◌, ◌-◌, ◌^◌, ◌<◌, ◌≤◌, [], ◌∷◌, ◌++◌, length, drop, IfOk, OnOk, OnErr};
ghost use Rattle.pc_base.specs.Stream.{Rose};
ghost use Rattle.pc_disk.specs.Images.{area_of, with_area, InArea};
ghost use Rattle.pc_disk.specs.Outcomes.{Only, LeavesOnly, SameDue};
ghost use Rattle.pc_log.specs.Area.{head_bytes};
ghost use Rattle.pc_log.specs.Making.{OldOrUnmade, UnmadeOrNew, clear_calls, FailsAtLast, MakingFails};

use crate::fault::LogFault;
use crate::head::MAGIC;
use pc_base::Memory;
use pc_disk::{Disk, StepFault, put, trim};
use std::alloc::Global;

/// What stands behind the gate of an area that is made anew: its head, and a closed gate.
#[tactic(auto, unfolding(crate::specs::Area::head_bytes))]
pub(crate) fn spell(
    alloc: Global,
    kind: u8,
    generation: u64,
    first: u64,
    base: &[u8],
) -> Result<Vec<u8>, Memory>
    requires { length base.now ≤ 1073741824 }
    ensures { IfOk result (λ bytes. bytes.items ≡ head_bytes (record { kind = kind; generation = generation; first = first; base = base.now }) ++ 0 ∷ []) }
{
    let mut bytes = Vec::with_capacity(alloc, base.len() + 30)?;
    bytes.extend_from_slice(&MAGIC.to_be_bytes())?;
    bytes.extend_from_slice(&kind.to_be_bytes())?;
    bytes.extend_from_slice(&generation.to_be_bytes())?;
    bytes.extend_from_slice(&first.to_be_bytes())?;
    bytes.extend_from_slice(&(base.len() as u32).to_be_bytes())?;
    bytes.extend_from_slice(base)?;
    bytes.push(0)?;
    Ok(bytes)
}

/// Takes away what stands in an area, up to one closed gate.
pub(crate) fn clear<D: Disk>(disk: &mut D, area: u8) -> Result<(), LogFault>
    requires area { area < 2 }
    requires calls { 4 ≤ D.spare_calls disk.old }
    requires bytes { 1 ≤ D.spare_bytes disk.old }
    ensures cleared { D.tells → OnOk result ((gate : ℕ) × (gate ≡ 1 → ⊥) × (D.seen disk.new ≡ with_area area (gate ∷ []) (D.seen disk.old))) }
    ensures settled { D.tells → OnOk result (Only (D.seen disk.new) (D.may_leave disk.new)) }
    ensures any_moment { D.tells → Only (D.seen disk.old) (D.may_leave disk.old) → LeavesOnly D.moment D.left_since disk.old disk.new (InArea area OldOrUnmade (D.seen disk.old)) }
    ensures calls { D.tells → OnOk result (D.moment disk.new ≡ D.moment disk.old + clear_calls (area_of area (D.seen disk.old))) }
    ensures later { D.moment disk.old ≤ D.moment disk.new }
    ensures most_calls { D.tells → D.moment disk.new ≤ D.moment disk.old + clear_calls (area_of area (D.seen disk.old)) }
    ensures due { D.tells_due → MakingFails result (D.moment disk.old) (D.moment disk.new) (D.due disk.old) (D.taken disk.old) }
    ensures ahead { D.tells_due → SameDue (D.moment disk.new) (D.due disk.old) (D.due disk.new) }
    ensures only_device { OnErr result (result ≡ Err LogFault.Device) }
    ensures faults { D.faults disk.old ≤ D.faults disk.new }
    ensures cause { OnErr result (Rose (D.faults disk.old) (D.faults disk.new)) }
    ensures taken { D.taken disk.new ≤ D.taken disk.old + 1 }
    ensures spare_calls { D.spare_calls disk.old ≤ D.spare_calls disk.new + 4 }
    ensures spare_bytes { D.spare_bytes disk.old ≤ D.spare_bytes disk.new + 1 }
{
    let mut gate = [0];
    let count = disk.read(area, 0, &mut gate)?;
    match (count, gate) {
        (0, _) => put(disk, area, 0, &[0])?,
        (_, [1]) => close_and_cut(disk, area)?,
        (_, _) => trim(disk, area, 1)?,
    }
    Ok(())
}

/// Closes the open gate of an area, and cuts what stands behind it.
fn close_and_cut<D: Disk>(disk: &mut D, area: u8) -> Result<(), StepFault>
    requires area { area < 2 }
    requires open_gate { D.tells → area_of area (D.seen disk.old) ≡ 1 ∷ drop 1 (area_of area (D.seen disk.old)) }
    requires calls { 4 ≤ D.spare_calls disk.old }
    requires bytes { 1 ≤ D.spare_bytes disk.old }
    ensures cleared { D.tells → OnOk result (D.seen disk.new ≡ with_area area (0 ∷ []) (D.seen disk.old)) }
    ensures settled { D.tells → OnOk result (Only (D.seen disk.new) (D.may_leave disk.new)) }
    ensures any_moment { D.tells → Only (D.seen disk.old) (D.may_leave disk.old) → LeavesOnly D.moment D.left_since disk.old disk.new (InArea area OldOrUnmade (D.seen disk.old)) }
    ensures calls { OnOk result (D.moment disk.new ≡ D.moment disk.old + 4) }
    ensures later { D.moment disk.old ≤ D.moment disk.new }
    ensures most_calls { D.moment disk.new ≤ D.moment disk.old + 4 }
    ensures due { D.tells_due → FailsAtLast result (D.moment disk.old) (D.moment disk.new) (D.due disk.old) }
    ensures ahead { D.tells_due → SameDue (D.moment disk.new) (D.due disk.old) (D.due disk.new) }
    ensures faults { D.faults disk.old ≤ D.faults disk.new }
    ensures cause { OnErr result (Rose (D.faults disk.old) (D.faults disk.new)) }
    ensures taken { D.taken disk.new ≡ D.taken disk.old }
    ensures spare_calls { D.spare_calls disk.old ≤ D.spare_calls disk.new + 4 }
    ensures spare_bytes { D.spare_bytes disk.old ≤ D.spare_bytes disk.new + 1 }
{
    put(disk, area, 0, &[0])?;
    trim(disk, area, 1)?;
    Ok(())
}

/// Writes what stands behind an area's gate, and opens it.
pub(crate) fn fill<D: Disk>(disk: &mut D, area: u8, bytes: &[u8]) -> Result<(), LogFault>
    requires area { area < 2 }
    requires cleared { D.tells → (gate : ℕ) × (gate ≡ 1 → ⊥) × (area_of area (D.seen disk.old) ≡ gate ∷ []) }
    requires settled { D.tells → Only (D.seen disk.old) (D.may_leave disk.old) }
    requires calls { 4 ≤ D.spare_calls disk.old }
    requires bytes { length bytes.now + 1 ≤ D.spare_bytes disk.old }
    ensures filled { D.tells → OnOk result (D.seen disk.new ≡ with_area area (1 ∷ bytes.now) (D.seen disk.old)) }
    ensures settled { D.tells → OnOk result (Only (D.seen disk.new) (D.may_leave disk.new)) }
    ensures any_moment { D.tells → LeavesOnly D.moment D.left_since disk.old disk.new (InArea area (UnmadeOrNew bytes.now) (D.seen disk.old)) }
    ensures calls { OnOk result (D.moment disk.new ≡ D.moment disk.old + 4) }
    ensures later { D.moment disk.old ≤ D.moment disk.new }
    ensures most_calls { D.moment disk.new ≤ D.moment disk.old + 4 }
    ensures due { D.tells_due → FailsAtLast result (D.moment disk.old) (D.moment disk.new) (D.due disk.old) }
    ensures ahead { D.tells_due → SameDue (D.moment disk.new) (D.due disk.old) (D.due disk.new) }
    ensures only_device { OnErr result (result ≡ Err LogFault.Device) }
    ensures faults { D.faults disk.old ≤ D.faults disk.new }
    ensures cause { OnErr result (Rose (D.faults disk.old) (D.faults disk.new)) }
    ensures taken { D.taken disk.new ≡ D.taken disk.old }
{
    put(disk, area, 1, bytes)?;
    put(disk, area, 0, &[1])?;
    Ok(())
}
