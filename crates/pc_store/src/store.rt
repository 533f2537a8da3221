//! The store itself.

ghost use Rattle.std.specs.Prelude.{◌≡◌, ◌⊎◌, ◌↔◌, ℕ, ◌+◌, ◌-◌, ◌^◌, ◌<◌, ◌≤◌, true, false, List, [], ◌∷◌, ◌++◌, length, None, Some, MatchOption, IfOk, IfErr, OnOk, OnErr};
ghost use Rattle.pc_base.specs.Stream.{Rose};
ghost use Rattle.pc_disk.specs.Alarm.{IsDue, unarmed};
ghost use Rattle.pc_disk.specs.Images.{Images, area_of, other_of, with_area, InArea};
ghost use Rattle.pc_disk.specs.Outcomes.{Only, LeavesOnly, SameDue};
ghost use Rattle.pc_disk.specs.StepFaults.{LeadsOn};
ghost use Rattle.pc_log.specs.Area.{Head, fresh, front};
ghost use Rattle.pc_log.specs.Making.{OldUnmadeOrNew};
ghost use Rattle.pc_store.specs.History.{IsReplay, written_of};
ghost use Rattle.pc_store.specs.Current.{NoneMade, OpensIn};
ghost use Rattle.pc_store.specs.Store.{Acknowledges, OpensInDoubt, SameHistory, next_number, room_of};
ghost use Rattle.pc_store.specs.Reading.{HoldsSettled, head_of_history};
ghost use Rattle.pc_store.specs.Opening.{DueOrTaken, FailsWhereDue, FirstFaultIn, IsFaultOf, IsOutside, IfDevice, MakesWhereDue, MakingCalls, OnDevice, OnDisk, OpensAs, RefusesAs, SyncsOnce, WhileMade, answer_of};
ghost use Rattle.pc_base.specs.declared.store_fault.StoreFault.TheVariants as store;

use crate::fault::OpenFault;
use crate::making::make;
use crate::reading::{History, LAST_NUMBER, read_settled};
use pc_base::{Bytes, Machine, Room, StoreFault};
use pc_disk::{Choice, Disk, MemoryDisk};
use pc_log::Log;
use std::alloc::Global;
use std::marker::Model;

/// The most entries of a trail.
pub(crate) const MOST_ENTRIES: u32 = 65_536;

/// The most bytes that the entries of a trail have together.
pub(crate) const MOST_BYTES: u32 = 16_777_216;

/// The head of an area that has no entries.
#[derive(Drop)]
pub(crate) struct Renewal {
    pub kind: u8,
    pub generation: u64,
    pub first: u64,
    pub base: Bytes,
}

impl Model for Renewal {
    ghost use Rattle.pc_log.specs.Area.{Head};

    ghost Value = { Head };

    ghost view = { λ r. record { kind = r.kind; generation = r.generation; first = r.first; base = r.base } };
}

/// A machine on a disk: the base, the entries since (the trail), and the state after them.
#[derive(Drop)]
pub struct Store<M: Machine, D: Disk + Drop> {
    pub(crate) disk: D,
    pub(crate) log: Log,
    pub(crate) generation: u64,
    pub(crate) first: u64,
    pub(crate) base: Bytes,
    pub(crate) trail: Vec<M::Entry>,
    // how many bytes the entries have as they are written
    pub(crate) bytes: u32,
    pub(crate) state: M,
    pub(crate) is_broken: bool,
    pub(crate) doubt: Option<M::Entry>,
    // what a fold that failed may have left in the other area
    pub(crate) renewal: Option<Renewal>,
}

impl<M: Machine, D: Disk + Drop> Model for Store<M, D> {
    ghost use Rattle.std.specs.Prelude.{ℕ, List};
    ghost use Rattle.pc_store.specs.Store.{StoreState, IsSound};

    ghost Value = { StoreState M D M.Entry };

    ghost view = { λ s. record { disk = s.disk; area = s.log.area; head = record { kind = M.KIND; generation = s.generation; first = s.first; base = s.base }; trail = s.trail.items; state = s.state; broken = s.is_broken; doubt = s.doubt; renewal = s.renewal } };

    ghost invariant = { λ s. IsSound M.Machine D.tells D.seen D.may_leave (record { disk = s.disk; area = s.log.area; head = record { kind = M.KIND; generation = s.generation; first = s.first; base = s.base }; trail = s.trail.items; state = s.state; broken = s.is_broken; doubt = s.doubt; renewal = s.renewal }) s.log s.bytes };
}

impl<M: Machine, D: Disk + Drop> Store<M, D> {
    /// Makes a store of no history on a disk of which neither area is made. The cause of a refusal is
    /// `Device` or `Memory` alone.
    pub fn create(alloc: Global, disk: D) -> Result<Store<M, D>, OpenFault<D>>
        requires { D.tells → NoneMade (D.seen disk) }
        ensures made { IfOk result (λ store. store ≡ record { disk = store.disk; area = 0; head = record { kind = M.KIND; generation = 1; first = 1; base = M.saved M.begin }; trail = []; state = M.numbered M.begin 1; broken = false; doubt = None; renewal = None }) }
        ensures acknowledged { D.tells → IfOk result (Acknowledges M.Machine.own D.seen D.may_leave) }
        ensures outside { IfErr result (λ fault. IsOutside fault.cause) }
        ensures cause { IfErr result (λ fault. IfDevice fault.cause (Rose (D.faults disk) (D.faults fault.disk))) }
        ensures faults { OnDisk result (λ now. D.faults disk ≤ D.faults now) }

        // Then area 0 is the one of no history, and the other is as it was.
        ensures seen { D.tells → IfOk result (λ store. D.seen store.disk ≡ with_area 0 (fresh (record { kind = M.KIND; generation = 1; first = 1; base = M.saved M.begin })) (D.seen disk)) }

        // It makes a sync, the device calls that take away what stands, and four more; or those up to the one
        // that failed.
        ensures calls { D.tells → OnDisk result (λ now. MakingCalls (answer_of result) (area_of 0 (D.seen disk)) (D.moment disk) (D.moment now)) }
        ensures due { D.tells_due → OnDisk result (λ now. MakesWhereDue (answer_of result) (D.moment disk) (D.moment now) (D.due disk) (D.taken disk)) }
        ensures ahead { D.tells_due → OnDisk result (λ now. SameDue (D.moment now) (D.due disk) (D.due now)) }

        // It reads a byte.
        ensures taken { OnDisk result (λ now. D.taken now ≤ D.taken disk + 1) }

        // A crash at any moment leaves what it might have left, or an area that isn't made, or the new one.
        ensures any_moment { D.tells → OnDisk result (λ now. LeavesOnly D.moment D.left_since disk now (WhileMade (record { kind = M.KIND; generation = 1; first = 1; base = M.saved M.begin }) (D.seen disk) (D.may_leave disk))) }
    {
        let mut disk = disk;
        let history = match make(alloc, &mut disk) {
            Ok(history) => history,
            Err(cause) => return Err(OpenFault { disk, cause }),
        };
        Ok(Store::of(disk, history))
    }

    /// Opens the store that stands on a disk. It begins with a sync.
    pub fn open_store(alloc: Global, disk: D) -> Result<Store<M, D>, OpenFault<D>>
        ensures found { D.tells → IfOk result (λ store. OpensIn M.Machine.own store.area store.head store.trail (D.seen disk)) }
        ensures replay { IfOk result (λ store. IsReplay M.Machine.own store.head store.trail store.state) }
        ensures fresh { IfOk result (λ store. (store.broken ≡ false) × (store.doubt ≡ None) × (store.renewal ≡ None)) }
        ensures acknowledged { D.tells → IfOk result (Acknowledges M.Machine.own D.seen D.may_leave) }

        // What stands is found.
        ensures only { D.tells → (index : ℕ) (head : Head) (trail : List M.Entry) → OpensIn M.Machine.own index head trail (D.seen disk) → OpensAs index head trail result }

        // A fault is the first, and what isn't made or has a fault isn't opened.
        ensures fault { D.tells → IfErr result (λ fault. IsFaultOf M.Machine.own (D.seen disk) fault.cause) }
        ensures unmade { D.tells → NoneMade (D.seen disk) → RefusesAs (answer_of result) store.NotMade }
        ensures first { D.tells → (index place : ℕ) → FirstFaultIn M.Machine.own (D.seen disk) index place → RefusesAs (answer_of result) (store.Malformed index place) }
        ensures cause { IfErr result (λ fault. IfDevice fault.cause (Rose (D.faults disk) (D.faults fault.disk))) }
        ensures faults { OnDisk result (λ now. D.faults disk ≤ D.faults now) }

        // The sync is the one device call.
        ensures calls { OnDisk result (λ now. SyncsOnce (answer_of result) (D.moment disk) (D.moment now)) }
        ensures due { D.tells_due → FailsWhereDue (answer_of result) (D.due disk (D.moment disk)) (DueOrTaken (D.due disk) (D.moment disk + 1) (D.taken disk) (2 ^ 31)) }
        ensures ahead { D.tells_due → OnDisk result (λ now. SameDue (D.moment now) (D.due disk) (D.due now)) }

        // It reads little more than the base and the entries of the area that counts; and where it is refused no more than the longest
        // area has.
        ensures taken { IfOk result (λ store. D.taken store.disk ≤ D.taken disk + length (front store.head (written_of M.Machine.own store.trail)) + 65) }
        ensures most_taken { OnDisk result (λ now. D.taken now ≤ D.taken disk + 2 ^ 31) }

        // The disk reads as before, and a crash at any moment leaves what it might have left.
        ensures seen { D.tells → OnDisk result (λ now. D.seen now ≡ D.seen disk) }
        ensures any_moment { D.tells → OnDisk result (λ now. LeavesOnly D.moment D.left_since disk now (D.may_leave disk)) }
    {
        let mut disk = disk;
        let history = match read_settled(alloc, &mut disk) {
            Ok(history) => history,
            Err(cause) => return Err(OpenFault { disk, cause }),
        };
        Ok(Store::of(disk, history))
    }

    /// Reads all again, after a sync, and ends being broken. After `Err` all is as before.
    pub fn reopen(&mut self, alloc: Global) -> Result<(), StoreFault>
        ensures mended { OnOk result ((self.new.broken ≡ false) × (self.new.doubt ≡ None) × (self.new.renewal ≡ None)) }
        ensures same { D.tells → OnOk result (SameHistory self.old self.new) }
        ensures replay { OnOk result (IsReplay M.Machine.own self.new.head self.new.trail self.new.state) }
        ensures acknowledged { D.tells → OnOk result (Acknowledges M.Machine.own D.seen D.may_leave self.new) }
        ensures err { OnErr result (self.new ≡ record self.old { disk = self.new.disk }) }
        ensures outside { D.tells → IfErr result IsOutside }
        ensures cause { OnDevice result (Rose (D.faults self.old.disk) (D.faults self.new.disk)) }
        ensures faults { D.faults self.old.disk ≤ D.faults self.new.disk }

        // The sync is the one device call.
        ensures calls { SyncsOnce result (D.moment self.old.disk) (D.moment self.new.disk) }
        ensures due { D.tells_due → FailsWhereDue result (D.due self.old.disk (D.moment self.old.disk)) (DueOrTaken (D.due self.old.disk) (D.moment self.old.disk + 1) (D.taken self.old.disk) (2 ^ 31)) }
        ensures ahead { D.tells_due → SameDue (D.moment self.new.disk) (D.due self.old.disk) (D.due self.new.disk) }

        // It reads little more than the base and the entries of the area that counts; and where it is refused no more than the longest
        // area has.
        ensures taken { OnOk result (D.taken self.new.disk ≤ D.taken self.old.disk + length (front self.new.head (written_of M.Machine.own self.new.trail)) + 65) }
        ensures most_taken { D.taken self.new.disk ≤ D.taken self.old.disk + 2 ^ 31 }

        // The disk reads as before, and a crash at any moment leaves what it might have left.
        ensures seen { D.tells → D.seen self.new.disk ≡ D.seen self.old.disk }
        ensures any_moment { D.tells → LeavesOnly D.moment D.left_since self.old.disk self.new.disk (D.may_leave self.old.disk) }
    {
        let history = read_settled(alloc, &mut self.disk)?;
        self.log = history.log;
        self.generation = history.generation;
        self.first = history.first;
        self.base = history.base;
        self.trail = history.trail;
        self.bytes = history.bytes;
        self.state = history.state;
        self.is_broken = false;
        self.doubt = None;
        self.renewal = None;
        Ok(())
    }

    /// The entry of the commit that answered `Device` at its third or fourth device call, until the store
    /// is opened again.
    pub fn doubt(&self) -> Option<&M::Entry>
        ensures value { MatchOption result (self.now.doubt ≡ None) (λ entry. self.now.doubt ≡ Some entry.now) }
        ensures none { self.now.broken ≡ false → self.now.doubt ≡ None }
        ensures no_renewal { self.now.broken ≡ false → self.now.renewal ≡ None }
    {
        self.doubt.as_ref()
    }

    /// Whether a commit or a fold failed since the store was opened, so that it is to be opened again.
    pub fn is_broken(&self) -> bool
        ensures { result ≡ self.now.broken }
    {
        self.is_broken
    }

    /// The state. It is where the base and the trail lead.
    pub fn state(&self) -> &M
        requires { self.now.broken ≡ false }
        ensures value { result.now ≡ self.now.state }
        ensures replay { IsReplay M.Machine.own self.now.head self.now.trail self.now.state }
    {
        &self.state
    }

    /// The entries since the base.
    pub fn trail(&self) -> &[M::Entry]
        ensures { result.now ≡ self.now.trail }
    {
        self.trail.as_slice()
    }

    /// The number of the first entry after the base.
    pub fn first(&self) -> u64
        ensures { result ≡ self.now.head.first }
    {
        self.first
    }

    /// The number of the next entry.
    pub fn next(&self) -> u64
        ensures value { result ≡ next_number self.now }
        ensures most { result ≤ 2 ^ 63 }
    {
        self.first + self.trail.len() as u64
    }

    /// How much the store still takes.
    pub fn room(&self) -> Room
        ensures { result ≡ room_of M.Machine.own self.now }
    {
        let numbers = LAST_NUMBER + 1 - self.next();
        let entries = MOST_ENTRIES - self.trail.len() as u32;
        Room {
            entries: u64::from(entries).min(numbers) as u32,
            bytes: MOST_BYTES - self.bytes,
        }
    }

    /// The disk.
    pub fn into_disk(self) -> D
        ensures disk { result ≡ self.disk }

        // A crash now leaves the history, with the entry in doubt or without it; or the head in doubt.
        ensures leaves { D.tells → (left : Images) → D.may_leave result left → OpensInDoubt M.Machine.own self left }
    {
        let Store {
            disk,
            log: _,
            generation: _,
            first: _,
            base: _,
            trail: _,
            bytes: _,
            state: _,
            is_broken: _,
            doubt: _,
            renewal: _,
        } = self;
        disk
    }

    // The store of a history that was read or made on this disk.
    fn of(disk: D, history: History<M>) -> Store<M, D>
        requires { HoldsSettled M.Machine.own D.tells D.seen D.may_leave disk history }
        ensures { result ≡ record { disk = disk; area = history.log.area; head = head_of_history M.Machine.own history; trail = history.trail.items; state = history.state; broken = false; doubt = None; renewal = None } }
    {
        let History {
            log,
            generation,
            first,
            base,
            trail,
            bytes,
            state,
        } = history;
        Store {
            disk,
            log,
            generation,
            first,
            base,
            trail,
            bytes,
            state,
            is_broken: false,
            doubt: None,
            renewal: None,
        }
    }
}

impl<M: Machine> Store<M, MemoryDisk> {
    /// Lets the k-th device call from now fail. It then changes nothing.
    pub fn fail_at(&mut self, k: u32)
        requires { 0 < k }
        ensures state { self.new ≡ record self.old { disk = record self.old.disk { alarm = record self.old.disk.alarm { failing = k } } } }
        ensures due { self.old.disk.alarm ≡ unarmed → (ahead : ℕ) → IsDue self.new.disk.alarm ahead ↔ (ahead + 1 ≡ k) }
    {
        self.disk.fail_at(k);
    }

    /// Stops the disk at the k-th device call from now, which fails, as each call after it does.
    pub fn stop_at(&mut self, k: u32, choice: Choice)
        requires { 0 < k }
        ensures state { self.new ≡ record self.old { disk = record self.old.disk { alarm = record self.old.disk.alarm { stopping = k; choice = choice } } } }
        ensures due { self.old.disk.alarm ≡ unarmed → (ahead : ℕ) → IsDue self.new.disk.alarm ahead ↔ (k ≤ ahead + 1) }
    {
        self.disk.stop_at(k, choice);
    }

    /// Whether the disk has stopped.
    pub fn stopped(&self) -> bool
        ensures { result ≡ self.now.disk.alarm.is_stopped }
    {
        self.disk.stopped()
    }
}
