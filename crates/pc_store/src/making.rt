//! Making a store.

ghost use Rattle.std.specs.Prelude.{◌≡◌, ◌⊎◌, ℕ, ◌+◌, ◌<◌, ◌≤◌, [], IfOk, IfErr, OnOk};
ghost use Rattle.pc_base.specs.Stream.{Rose};
ghost use Rattle.pc_disk.specs.Images.{area_of, with_area};
ghost use Rattle.pc_disk.specs.Outcomes.{LeavesOnly, SameDue};
ghost use Rattle.pc_log.specs.Area.{fresh};
ghost use Rattle.pc_store.specs.Current.{NoneMade};
ghost use Rattle.pc_store.specs.Opening.{IsOutside, MakesWhereDue, MakingCalls, OnDevice, WhileMade};
ghost use Rattle.pc_store.specs.Reading.{HoldsSettled};

use crate::reading::{History, in_area, settle};
use pc_base::{Bytes, Machine, StoreFault};
use pc_disk::Disk;
use pc_log::Log;
use std::alloc::Global;

/// The area of a store that is made.
const AREA: u8 = 0;

/// The generation of a store that is made.
const GENERATION: u64 = 1;

/// The number of the first entry of a store that is made.
const FIRST: u64 = 1;

/// Makes the area of a store of no history.
pub(crate) fn make<M: Machine, D: Disk>(
    alloc: Global,
    disk: &mut D,
) -> Result<History<M>, StoreFault>
    requires { D.tells → NoneMade (D.seen disk.old) }
    ensures made { IfOk result (λ history. (history.log.area ≡ 0) × (history.generation ≡ 1) × (history.first ≡ 1) × (history.base ≡ M.saved M.begin) × (history.trail.items ≡ []) × (history.state ≡ M.numbered M.begin 1)) }
    ensures seen { D.tells → OnOk result (D.seen disk.new ≡ with_area 0 (fresh (record { kind = M.KIND; generation = 1; first = 1; base = M.saved M.begin })) (D.seen disk.old)) }
    ensures holds { IfOk result (HoldsSettled M.Machine.own D.tells D.seen D.may_leave disk.new) }
    ensures outside { IfErr result IsOutside }
    ensures cause { OnDevice result (Rose (D.faults disk.old) (D.faults disk.new)) }
    ensures faults { D.faults disk.old ≤ D.faults disk.new }
    ensures calls { D.tells → MakingCalls result (area_of 0 (D.seen disk.old)) (D.moment disk.old) (D.moment disk.new) }
    ensures due { D.tells_due → MakesWhereDue result (D.moment disk.old) (D.moment disk.new) (D.due disk.old) (D.taken disk.old) }
    ensures ahead { D.tells_due → SameDue (D.moment disk.new) (D.due disk.old) (D.due disk.new) }
    ensures taken { D.taken disk.new ≤ D.taken disk.old + 1 }
    ensures any_moment { D.tells → LeavesOnly D.moment D.left_since disk.old disk.new (WhileMade (record { kind = M.KIND; generation = 1; first = 1; base = M.saved M.begin }) (D.seen disk.old) (D.may_leave disk.old)) }
{
    let mut state = M::empty(alloc)?;
    state.number_from(FIRST);
    let mut base = Bytes::new(alloc);
    state.save(&mut base)?;
    settle(disk)?;
    let made = Log::create(
        alloc,
        disk,
        AREA,
        M::KIND,
        GENERATION,
        FIRST,
        base.as_slice(),
    );
    let log = match made {
        Ok(log) => log,
        Err(fault) => return Err(in_area(AREA, fault)),
    };
    Ok(History {
        log,
        generation: GENERATION,
        first: FIRST,
        base,
        trail: Vec::new(alloc),
        bytes: 0,
        state,
    })
}
