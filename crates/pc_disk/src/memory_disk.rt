//! A disk in memory, which fails and stops where it is told to.

ghost use Rattle.std.specs.Prelude.{◌≡◌, ℕ, ◌+◌, ◌-◌, ◌^◌, ◌<◌, ◌≤◌, ◌⊎◌, ◌↔◌, length, min, drop, IfOk, is_ok, if◌then◌else◌, OnOk, OnErr, IsErr, IsTrue, MatchResult};
ghost use Rattle.pc_base.specs.Stream.{HasCause};
ghost use Rattle.pc_disk.specs.Images.{area_of};
ghost use Rattle.pc_disk.specs.Alarm.{fate_of, unarmed, IsDue};
ghost use Rattle.pc_disk.specs.Deeds.{Write, Cut, Sync, reads, MayLeave};
ghost use Rattle.pc_disk.specs.Reading.{GivesBytes};
ghost use Rattle.pc_disk.specs.Memory.{empty_disk, passed, after_crash, Answers};

use crate::alarm::Alarm;
use crate::areas::Areas;
use crate::choice::Choice;
use crate::deeds::Deeds;
use crate::disk::Disk;
use crate::fate::Fate;
use pc_base::{Failed, Memory};
use std::alloc::Global;
use std::marker::Model;

/// A disk in memory. It keeps a record of its device calls, by which it tells what a crash since a
/// moment may have left.
#[derive(Drop)]
pub struct MemoryDisk {
    // what a read gives
    present: Areas,
    // what stood when the record began
    first: Areas,
    deeds: Deeds,
    alarm: Alarm,
    faults: u64,
    taken: u64,
    // how long an area may become
    limit: usize,
    spare_calls: usize,
    spare_bytes: usize,
}

impl Model for MemoryDisk {
    ghost use Rattle.pc_disk.specs.Areas.{held, room};
    ghost use Rattle.pc_disk.specs.Memory.{DiskState, IsSound};

    ghost Value = { DiskState };

    ghost view = { λ d. record { first = held d.first; deeds = d.deeds.deeds; alarm = d.alarm; faults = d.faults; taken = d.taken; spare_calls = d.spare_calls; spare_bytes = d.spare_bytes } };

    ghost invariant = { λ d. IsSound (held d.first) (held d.present) d.deeds.deeds d.deeds.written d.deeds.call_room d.deeds.byte_room (room d.first) (room d.present) d.limit d.spare_calls d.spare_bytes };
}

impl MemoryDisk {
    /// An empty disk, on which nothing is armed.
    pub fn new(alloc: Global) -> MemoryDisk
        ensures { result ≡ empty_disk }
    {
        MemoryDisk {
            present: Areas::new(alloc),
            first: Areas::new(alloc),
            deeds: Deeds::new(alloc),
            alarm: Alarm::new(),
            faults: 0,
            taken: 0,
            limit: 0,
            spare_calls: 0,
            spare_bytes: 0,
        }
    }

    /// Lets the k-th device call from now fail. It then changes nothing.
    pub fn fail_at(&mut self, k: u32)
        requires { 0 < k }
        ensures state { self.new ≡ record self.old { alarm = record self.old.alarm { failing = k } } }
        ensures due { self.old.alarm ≡ unarmed → (ahead : ℕ) → IsDue self.new.alarm ahead ↔ (ahead + 1 ≡ k) }
    {
        self.alarm.failing = u64::from(k);
    }

    /// Stops the disk at the k-th device call from now, which fails, as each call after it does.
    pub fn stop_at(&mut self, k: u32, choice: Choice)
        requires { 0 < k }
        ensures state { self.new ≡ record self.old { alarm = record self.old.alarm { stopping = k; choice = choice } } }
        ensures due { self.old.alarm ≡ unarmed → (ahead : ℕ) → IsDue self.new.alarm ahead ↔ (k ≤ ahead + 1) }
    {
        self.alarm.stopping = u64::from(k);
        self.alarm.choice = choice;
    }

    /// Whether the disk has stopped.
    pub fn stopped(&self) -> bool
        ensures { result ≡ self.now.alarm.is_stopped }
    {
        self.alarm.is_stopped
    }

    /// The count of faults.
    pub(crate) fn faults(&self) -> u64
        ensures { result ≡ self.now.faults }
    {
        self.faults
    }

    /// Sets the count of faults to 0.
    pub(crate) fn forget_faults(&mut self)
        ensures { self.new ≡ record self.old { faults = 0 } }
    {
        self.faults = 0;
    }

    /// The disk after a crash, by the choice that is armed, or by `Lose`. Nothing is pending then,
    /// nothing armed and nothing reserved.
    pub fn crashed(self) -> MemoryDisk
        ensures left { result ≡ after_crash self }
        ensures possible { MayLeave self.first self.deeds result.first }
    {
        let MemoryDisk {
            mut present,
            mut first,
            mut deeds,
            alarm,
            faults,
            taken,
            limit,
            spare_calls: _,
            spare_bytes: _,
        } = self;
        deeds.crash(alarm.choice, &mut first);
        present.copy(&first);
        deeds.clear();
        MemoryDisk {
            present,
            first,
            deeds,
            alarm: Alarm::new(),
            faults,
            taken,
            limit,
            spare_calls: 0,
            spare_bytes: 0,
        }
    }
}

impl Disk for MemoryDisk {
    ghost use Rattle.std.specs.Prelude.{◌-◌, length, ⊤};
    ghost use Rattle.pc_disk.specs.Alarm.{IsDue};
    ghost use Rattle.pc_disk.specs.Deeds.{reads, MayLeave, LeftSince};
    ghost use Rattle.pc_disk.specs.MemoryLaws.{reads_possible, counts_this_moment, only_this_moment};

    ghost tells = { ⊤ };

    ghost tells_due = { ⊤ };

    ghost seen = { λ s. reads s.first s.deeds };

    ghost may_leave = { λ s left. MayLeave s.first s.deeds left };

    ghost left_since = { λ s earlier left. LeftSince s.first s.deeds earlier left };

    ghost moment = { λ s. length s.deeds };

    ghost due = { λ s moment. IsDue s.alarm (moment - length s.deeds) };

    ghost faults = { λ s. s.faults };

    ghost taken = { λ s. s.taken };

    ghost spare_calls = { λ s. s.spare_calls };

    ghost spare_bytes = { λ s. s.spare_bytes };

    ghost present = { λ _ s. reads_possible s.first s.deeds };

    ghost counts_now = { λ _ s earlier left. counts_this_moment s.first s.deeds earlier left };

    ghost only_now = { λ _ s left. only_this_moment s.first s.deeds left };

    fn length(&mut self, area: u8) -> Result<u64, Failed>
        requires { area < 2 }
        ensures value { IfOk result (λ count. count ≡ length (area_of area (reads self.old.first self.old.deeds))) }
        ensures state { self.new ≡ (if is_ok result then self.old else record self.old { faults = min (self.old.faults + 1) (2 ^ 64 - 1) }) }
        ensures stops { IsErr result ↔ IsTrue self.old.alarm.is_stopped }
        ensures cause { HasCause self.old.faults self.new.faults result }
    {
        if self.alarm.is_stopped {
            return Err(fault(&mut self.faults));
        }
        Ok(self.present.area(area).len() as u64)
    }

    fn read(&mut self, area: u8, at: u64, into: &mut [u8]) -> Result<usize, Failed>
        requires { area < 2 }
        ensures bytes { GivesBytes result (drop at (area_of area (reads self.old.first self.old.deeds))) into.new }
        ensures bound { IfOk result (λ count. count ≤ length into.new) }
        ensures taken { IfOk result (λ count. self.new ≡ record self.old { taken = self.old.taken + count }) }
        ensures fault { OnErr result (self.new ≡ record self.old { faults = min (self.old.faults + 1) (2 ^ 64 - 1) }) }
        ensures stops { IsTrue self.old.alarm.is_stopped → IsErr result }
        ensures fails { OnErr result (IsTrue self.old.alarm.is_stopped ⊎ (2 ^ 64 ≤ self.old.taken + length into.new)) }
        ensures small { IfOk result (λ _. self.new.taken < 2 ^ 64) }
        ensures cause { HasCause self.old.faults self.new.faults result }
    {
        let bytes = self.present.area(area);
        let rest = &bytes[bytes.len().min(at as usize)..];
        let count = rest.len().min(into.len());
        if self.alarm.is_stopped || self.taken > u64::MAX - count as u64 {
            return Err(fault(&mut self.faults));
        }
        into[..count].copy_from_slice(&rest[..count]);
        self.taken += count as u64;
        Ok(count)
    }

    fn reserve(&mut self, area: u8, upto: u64) -> Result<(), Memory>
        requires { area < 2 }
        ensures calls { OnOk result (8 ≤ self.new.spare_calls) }
        ensures bytes { OnOk result (upto + 8 ≤ self.new.spare_bytes) }
        ensures state { self.new ≡ record self.old { spare_calls = self.new.spare_calls; spare_bytes = self.new.spare_bytes } }
        ensures spare_calls { self.old.spare_calls ≤ self.new.spare_calls }
        ensures spare_bytes { self.old.spare_bytes ≤ self.new.spare_bytes }
    {
        let _ = area;
        let calls = self.spare_calls.max(8);
        let Some(bytes) = (upto as usize).checked_add(8) else {
            return Err(Memory);
        };
        let bytes = bytes.max(self.spare_bytes);
        let Some(limit) = self.present.longest().checked_add(bytes) else {
            return Err(Memory);
        };
        let limit = limit.max(self.limit);
        self.deeds.reserve(calls, bytes)?;
        self.present.reserve(limit)?;
        self.first.reserve(limit)?;
        self.limit = limit;
        self.spare_calls = calls;
        self.spare_bytes = bytes;
        Ok(())
    }

    fn write(&mut self, area: u8, at: u64, bytes: &[u8]) -> Result<(), Failed>
        requires area { area < 2 }
        requires place { at ≤ length (area_of area (reads self.old.first self.old.deeds)) }
        requires calls { 0 < self.old.spare_calls }
        requires bytes { length bytes.now ≤ self.old.spare_bytes }
        ensures state { self.new ≡ passed (Write area at bytes.now) self.old }
        ensures answer { Answers (fate_of self.old.alarm) result }
        ensures cause { HasCause self.old.faults self.new.faults result }
    {
        let fate = self.alarm.next();
        self.deeds.push_write(fate, area, at as usize, bytes);
        self.spare_calls -= 1;
        self.spare_bytes -= bytes.len();
        let Fate::Made = fate else {
            return Err(fault(&mut self.faults));
        };
        self.present.write(area, at as usize, bytes);
        Ok(())
    }

    fn cut(&mut self, area: u8, to: u64) -> Result<(), Failed>
        requires area { area < 2 }
        requires calls { 0 < self.old.spare_calls }
        ensures state { self.new ≡ passed (Cut area to) self.old }
        ensures answer { Answers (fate_of self.old.alarm) result }
        ensures cause { HasCause self.old.faults self.new.faults result }
    {
        let fate = self.alarm.next();
        self.deeds.push_cut(fate, area, to as usize);
        self.spare_calls -= 1;
        let Fate::Made = fate else {
            return Err(fault(&mut self.faults));
        };
        self.present.cut(area, to as usize);
        Ok(())
    }

    fn sync(&mut self) -> Result<(), Failed>
        requires { 0 < self.old.spare_calls }
        ensures state { self.new ≡ passed Sync self.old }
        ensures answer { Answers (fate_of self.old.alarm) result }
        ensures cause { HasCause self.old.faults self.new.faults result }
    {
        let fate = self.alarm.next();
        self.deeds.push_sync(fate);
        self.spare_calls -= 1;
        let Fate::Made = fate else {
            return Err(fault(&mut self.faults));
        };
        Ok(())
    }
}

/// Counts a fault.
pub fn fault(faults: &mut u64) -> Failed
    ensures counted { faults.new ≡ min (faults.old + 1) (2 ^ 64 - 1) }
    ensures later { faults.old ≤ faults.new }
{
    *faults = faults.saturating_add(1);
    Failed
}
