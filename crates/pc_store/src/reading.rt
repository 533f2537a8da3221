//! Reading the area that counts: its base and its entries.

ghost use Rattle.std.specs.Prelude.{◌≡◌, ℕ, ◌+◌, ◌^◌, ◌<◌, ◌≤◌, List, length, IfOk, IfErr, OnOk, IfSome};
ghost use Rattle.pc_base.specs.Machine.{IsNumbered};
ghost use Rattle.pc_base.specs.Stream.{Rose};
ghost use Rattle.pc_disk.specs.Images.{area_of};
ghost use Rattle.pc_disk.specs.Outcomes.{Only, Keeps, LeavesOnly, SameDue};
ghost use Rattle.pc_log.specs.Area.{Head};
ghost use Rattle.pc_log.specs.Untouched.{Untouched};
ghost use Rattle.pc_store.specs.History.{IsReplay};
ghost use Rattle.pc_store.specs.Current.{NoneMade, OpensIn};
ghost use Rattle.pc_store.specs.Opening.{DueOrTaken, FailsWhereDue, FirstFaultIn, OnDevice, IsFaultOf, IsOutside, RefusesAs, SyncsOnce};
ghost use Rattle.pc_base.specs.declared.store_fault.StoreFault.TheVariants as store;
ghost use Rattle.pc_store.specs.Reading.{of_log, of_read, limited_fault, FaultFits, NextIs, EntriesAre, LoadsBase, BaseFault, MakesEntry, FindsHistory, HoldsCurrent, HoldsSettled, IsFaultAt, IsHeldIn, head_of_history};

use crate::current::current;
use pc_base::{Bytes, Machine, ReadFault, StoreFault};
use pc_disk::Disk;
use pc_log::{Log, LogFault, Opening, PlacedEntry, Start};
use std::alloc::Global;

/// Where an area tells the number of the first entry.
const FIRST_PLACE: u64 = 18;

/// Where the base of an area begins.
const BASE_PLACE: u64 = 30;

/// How many bytes of a gate and a length stand before an entry.
const ENTRY_HEAD: u64 = 5;

/// The last number of an entry.
pub(crate) const LAST_NUMBER: u64 = (1 << 63) - 1;

/// What a made area holds: its head, the entries with the number of their bytes, and the state after
/// them.
#[derive(Drop)]
pub(crate) struct History<M: Machine> {
    pub log: Log,
    pub generation: u64,
    pub first: u64,
    pub base: Bytes,
    pub trail: Vec<M::Entry>,
    pub bytes: u32,
    pub state: M,
}

/// Entries that were read, and how many bytes they have.
#[derive(Drop)]
struct Entries<E> {
    trail: Vec<E>,
    bytes: u32,
}

/// An entry that was read, and how many bytes it has.
#[derive(Drop)]
pub(crate) struct ReadEntry<E> {
    pub entry: E,
    pub size: u32,
}

/// Syncs, and reads the history in the area that counts.
pub(crate) fn read_settled<M: Machine, D: Disk>(
    alloc: Global,
    disk: &mut D,
) -> Result<History<M>, StoreFault>
    ensures found { IfOk result (HoldsSettled M.Machine.own D.tells D.seen D.may_leave disk.new) }
    ensures only { D.tells → (index : ℕ) (head : Head) (trail : List M.Entry) → OpensIn M.Machine.own index head trail (D.seen disk.old) → FindsHistory M.Machine.own index head trail result }
    ensures replay { IfOk result (λ history. IsReplay M.Machine.own (head_of_history M.Machine.own history) history.trail.items history.state) }
    ensures seen { D.tells → D.seen disk.new ≡ D.seen disk.old }
    ensures keeps { D.tells → Keeps (D.may_leave disk.old) (D.may_leave disk.new) }
    ensures fault { D.tells → IfErr result (IsFaultOf M.Machine.own (D.seen disk.old)) }
    ensures unmade { D.tells → NoneMade (D.seen disk.old) → RefusesAs result store.NotMade }
    ensures first { D.tells → (index place : ℕ) → FirstFaultIn M.Machine.own (D.seen disk.old) index place → RefusesAs result (store.Malformed index place) }
    ensures cause { OnDevice result (Rose (D.faults disk.old) (D.faults disk.new)) }
    ensures faults { D.faults disk.old ≤ D.faults disk.new }
    ensures calls { SyncsOnce result (D.moment disk.old) (D.moment disk.new) }
    ensures due { D.tells_due → FailsWhereDue result (D.due disk.old (D.moment disk.old)) (DueOrTaken (D.due disk.old) (D.moment disk.old + 1) (D.taken disk.old) (2 ^ 31)) }
    ensures ahead { D.tells_due → SameDue (D.moment disk.new) (D.due disk.old) (D.due disk.new) }
    ensures taken { IfOk result (λ history. D.taken disk.new ≤ D.taken disk.old + history.log.gate + 65) }
    ensures most_taken { D.taken disk.new ≤ D.taken disk.old + 2 ^ 31 }
    ensures any_moment { D.tells → LeavesOnly D.moment D.left_since disk.old disk.new (D.may_leave disk.old) }
{
    settle(disk)?;
    read_current(alloc, disk)
}

/// Syncs a disk. Its room is made before.
pub(crate) fn settle<D: Disk>(disk: &mut D) -> Result<(), StoreFault>
    ensures settled { D.tells → OnOk result (Only (D.seen disk.new) (D.may_leave disk.new)) }
    ensures seen { D.tells → D.seen disk.new ≡ D.seen disk.old }
    ensures keeps { D.tells → Keeps (D.may_leave disk.old) (D.may_leave disk.new) }
    ensures outside { IfErr result IsOutside }
    ensures cause { OnDevice result (Rose (D.faults disk.old) (D.faults disk.new)) }
    ensures faults { D.faults disk.old ≤ D.faults disk.new }
    ensures calls { SyncsOnce result (D.moment disk.old) (D.moment disk.new) }
    ensures due { D.tells_due → FailsWhereDue result (D.due disk.old (D.moment disk.old)) ⊥ }
    ensures ahead { D.tells_due → SameDue (D.moment disk.new) (D.due disk.old) (D.due disk.new) }
    ensures taken { D.taken disk.new ≡ D.taken disk.old }
    ensures any_moment { D.tells → LeavesOnly D.moment D.left_since disk.old disk.new (D.may_leave disk.old) }
{
    disk.reserve(0, 0)?;
    let Ok(()) = disk.sync() else {
        return Err(StoreFault::Device);
    };
    Ok(())
}

/// Reads the history in the area that counts.
fn read_current<M: Machine, D: Disk>(alloc: Global, disk: &mut D) -> Result<History<M>, StoreFault>
    ensures found { IfOk result (HoldsCurrent M.Machine.own D.tells (D.seen disk.old)) }
    ensures fault { D.tells → IfErr result (IsFaultOf M.Machine.own (D.seen disk.old)) }
    ensures untouched { Untouched D.Disk.own disk.old disk.new }
    ensures cause { OnDevice result (Rose (D.faults disk.old) (D.faults disk.new)) }
    ensures due { D.tells_due → OnDevice result (DueOrTaken (D.due disk.old) (D.moment disk.old) (D.taken disk.old) (2 ^ 31)) }
    ensures taken { IfOk result (λ history. D.taken disk.new ≤ D.taken disk.old + history.log.gate + 65) }
    ensures most_taken { D.taken disk.new ≤ D.taken disk.old + 2 ^ 31 }
{
    let area = current(disk, M::KIND)?;
    read_history(alloc, disk, area)
}

/// Reads the history that an area holds.
fn read_history<M: Machine, D: Disk>(
    alloc: Global,
    disk: &mut D,
    area: u8,
) -> Result<History<M>, StoreFault>
    requires { area < 2 }
    ensures found { IfOk result (IsHeldIn M.Machine.own D.tells area (area_of area (D.seen disk.old))) }
    ensures fault { D.tells → IfErr result (IsFaultAt M.Machine.own area (area_of area (D.seen disk.old))) }
    ensures untouched { Untouched D.Disk.own disk.old disk.new }
    ensures cause { OnDevice result (Rose (D.faults disk.old) (D.faults disk.new)) }
    ensures due { D.tells_due → OnDevice result (DueOrTaken (D.due disk.old) (D.moment disk.old) (D.taken disk.old) 1107296286) }
    ensures taken { IfOk result (λ history. D.taken disk.new ≤ D.taken disk.old + history.log.gate + 5) }
    ensures most_taken { D.taken disk.new ≤ D.taken disk.old + 1107296286 }
{
    let start = match Opening::start(alloc, disk, area, M::KIND) {
        Ok(start) => start,
        Err(fault) => return Err(in_area(area, fault)),
    };
    let Start::Made {
        mut opening,
        generation,
        first,
        base,
    } = start
    else {
        return Err(StoreFault::NotMade);
    };
    let mut state = load_base::<M>(alloc, area, base.as_slice(), first)?;
    let gate = BASE_PLACE + base.as_slice().len() as u64;
    let entries = read_entries(alloc, disk, &mut opening, &mut state, area, gate, first)?;
    Ok(History {
        log: opening.into_log(),
        generation,
        first,
        base,
        trail: entries.trail,
        bytes: entries.bytes,
        state,
    })
}

/// The state whose record stands in a head, and which gives its next entry this number.
fn load_base<M: Machine>(alloc: Global, area: u8, base: &[u8], first: u64) -> Result<M, StoreFault>
    requires some { 0 < first }
    requires most { first ≤ 2 ^ 63 }
    requires short { length base.now ≤ 1073741824 }
    ensures ok { IfOk result (LoadsBase M.Machine.own base.now first) }
    ensures fault { IfErr result (BaseFault M.Machine.own area base.now first) }
{
    let mut state = match M::load(alloc, base) {
        Ok(state) => state,
        Err(fault) => return Err(placed(area, fault, BASE_PLACE)),
    };
    if !state.number_from(first) {
        return Err(StoreFault::Malformed {
            area,
            place: FIRST_PLACE,
        });
    }
    Ok(state)
}

/// Reads the entries behind a gate up to the closed gate, and makes them. The first gets this number.
fn read_entries<M: Machine, D: Disk>(
    alloc: Global,
    disk: &mut D,
    opening: &mut Opening,
    state: &mut M,
    area: u8,
    gate: u64,
    first: u64,
) -> Result<Entries<M::Entry>, StoreFault>
    requires gate { gate ≡ opening.old.reached.gate }
    requires within { gate < 2 ^ 31 }
    requires fresh { opening.old.reached.entries ≡ 0 }
    requires none { opening.old.reached.bytes ≡ 0 }
    requires area { opening.old.area ≡ area }
    requires most { first ≤ 2 ^ 63 }
    requires numbered { IsNumbered (M.next state.old) first }
    requires legal { M.is_legal state.old }
    ensures entries { EntriesAre M.Machine.own D.tells (area_of area (D.seen disk.old)) opening.old opening.new state.old state.new first result }
    ensures untouched { Untouched D.Disk.own disk.old disk.new }
    ensures cause { OnDevice result (Rose (D.faults disk.old) (D.faults disk.new)) }
    ensures due { D.tells_due → OnDevice result (DueOrTaken (D.due disk.old) (D.moment disk.old) (D.taken disk.old) 33554432) }
    ensures taken { OnOk result (D.taken disk.new + opening.old.reached.gate ≤ D.taken disk.old + opening.new.reached.gate + 5) }
    ensures most_taken { D.taken disk.new ≤ D.taken disk.old + 33554432 }
{
    let mut gate = gate;
    let mut number = first;
    let mut trail = Vec::new(alloc);
    let mut bytes = 0;
    while let Some(ReadEntry { entry, size }) = next_entry(
        alloc, disk, opening, state, area, gate, number,
    )? {
        trail.push(entry)?;
        bytes += size;
        gate += ENTRY_HEAD + u64::from(size);
        number += 1;
    }
    Ok(Entries { trail, bytes })
}

/// Reads the next entry behind a gate, and makes it; none at the closed gate. It gets this number.
fn next_entry<M: Machine, D: Disk>(
    alloc: Global,
    disk: &mut D,
    opening: &mut Opening,
    state: &mut M,
    area: u8,
    gate: u64,
    number: u64,
) -> Result<Option<ReadEntry<M::Entry>>, StoreFault>
    requires gate { gate ≡ opening.old.reached.gate }
    requires within { gate < 2 ^ 62 }
    requires area { opening.old.area ≡ area }
    requires numbered { IsNumbered (M.next state.old) number }
    ensures next { NextIs M.Machine.own D.tells (area_of area (D.seen disk.old)) opening.old opening.new state.old state.new number result }
    ensures untouched { Untouched D.Disk.own disk.old disk.new }
    ensures cause { OnDevice result (Rose (D.faults disk.old) (D.faults disk.new)) }
    ensures due { D.tells_due → OnDevice result (DueOrTaken (D.due disk.old) (D.moment disk.old) (D.taken disk.old) 8388613) }
    ensures taken { IfOk result (λ next. IfSome next (λ _. D.taken disk.new + opening.old.reached.gate ≤ D.taken disk.old + opening.new.reached.gate)) }
    ensures taken_at_last { OnOk result (D.taken disk.new + opening.old.reached.gate ≤ D.taken disk.old + opening.new.reached.gate + 5) }
    ensures most_taken { D.taken disk.new ≤ D.taken disk.old + 8388613 }
{
    let next = match opening.next(alloc, disk) {
        Ok(next) => next,
        Err(fault) => return Err(limited(area, fault, gate, number)),
    };
    let Some(PlacedEntry { place, bytes }) = next else {
        return Ok(None);
    };
    if number > LAST_NUMBER {
        return Err(StoreFault::Malformed { area, place });
    }
    let entry = make_entry(alloc, state, area, bytes.as_slice(), place)?;
    Ok(Some(ReadEntry {
        entry,
        size: bytes.as_slice().len() as u32,
    }))
}

/// Reads the entry behind the gate at a place, and makes it.
fn make_entry<M: Machine>(
    alloc: Global,
    state: &mut M,
    area: u8,
    bytes: &[u8],
    place: u64,
) -> Result<M::Entry, StoreFault>
    requires within { place < 2 ^ 62 }
    requires short { length bytes.now ≤ 8388608 }
    requires number { IfSome (M.next state.old) (λ number. number < 2 ^ 63) }
    ensures { MakesEntry M.Machine.own area bytes.now place state.old state.new result }
{
    let entry = match M::read_entry(alloc, bytes) {
        Ok(entry) => entry,
        Err(fault) => return Err(placed(area, fault, place + ENTRY_HEAD)),
    };
    if !state.allows(&entry) {
        return Err(StoreFault::Malformed { area, place });
    }
    state.apply(alloc, &entry)?;
    Ok(entry)
}

/// The fault behind a gate, where an entry would get this number. A number past the last is a fault of
/// the gate, and comes before one of the entry's bytes.
fn limited(area: u8, fault: LogFault, gate: u64, number: u64) -> StoreFault
    requires { gate < 2 ^ 62 }
    ensures { result ≡ limited_fault area number gate fault }
{
    let fault = in_area(area, fault);
    match fault {
        StoreFault::Malformed { area, place }
            if number > LAST_NUMBER && place == gate + ENTRY_HEAD => {
            StoreFault::Malformed { area, place: gate }
        }
        _ => fault,
    }
}

/// A fault of the log of an area.
pub(crate) fn in_area(area: u8, fault: LogFault) -> StoreFault
    ensures { result ≡ of_log area fault }
{
    match fault {
        LogFault::Malformed { place } => StoreFault::Malformed { area, place },
        LogFault::Device => StoreFault::Device,
        LogFault::Memory => StoreFault::Memory,
    }
}

/// The fault of a read of bytes that stand at a place.
fn placed(area: u8, fault: ReadFault, at: u64) -> StoreFault
    requires { FaultFits at fault }
    ensures { result ≡ of_read area at fault }
{
    match fault {
        ReadFault::Malformed { place } => StoreFault::Malformed {
            area,
            place: at + place,
        },
        ReadFault::Memory => StoreFault::Memory,
    }
}
