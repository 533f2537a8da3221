//! A disk that tells nothing of its bytes.

ghost use Rattle.std.specs.Prelude.{◌≡◌, ◌<◌, ◌≤◌, length, IsTrue};
ghost use Rattle.pc_disk.specs.Images.{area_of};

use crate::disk::Disk;
use crate::memory_disk::fault;
use pc_base::{Failed, Memory};
use std::marker::Model;

/// A disk over another one, which tells neither its bytes nor what crashes leave, nor which calls
/// fail: as little as a file tells. A write or cut behind the end of its area fails. Once almost
/// 2^64 device calls were made, `reserve` answers `Memory`.
#[derive(Drop)]
pub struct SilentDisk<D: Disk> {
    disk: D,
    moment: u64,
    faults: u64,
    spare_calls: u64,
}

impl<D: Disk> Model for SilentDisk<D> {
    ghost use Rattle.pc_disk.specs.Silent.{SilentState, IsCounted};

    ghost Value = { SilentState };

    ghost view = { λ s. record { moment = s.moment; faults = s.faults; taken = D.taken s.disk; spare_calls = s.spare_calls; spare_bytes = D.spare_bytes s.disk } };

    ghost invariant = { λ s. IsCounted s.moment s.spare_calls (D.spare_calls s.disk) };
}

impl<D: Disk> SilentDisk<D> {
    /// Tells no more of this disk. Nothing is reserved.
    pub fn new(disk: D) -> SilentDisk<D>
        ensures { result ≡ record { moment = 0; faults = 0; taken = D.taken disk; spare_calls = 0; spare_bytes = D.spare_bytes disk } }
    {
        SilentDisk {
            disk,
            moment: 0,
            faults: 0,
            spare_calls: 0,
        }
    }
}

impl<D: Disk> Disk for SilentDisk<D> {
    ghost use Rattle.std.specs.Prelude.{[]};

    ghost tells = { ⊥ };

    ghost tells_due = { ⊥ };

    ghost seen = { λ _. ([], []) };

    ghost may_leave = { λ _ _. ⊥ };

    ghost left_since = { λ _ _ _. ⊥ };

    ghost moment = { λ s. s.moment };

    ghost due = { λ _ _. ⊥ };

    ghost faults = { λ s. s.faults };

    ghost taken = { λ s. s.taken };

    ghost spare_calls = { λ s. s.spare_calls };

    ghost spare_bytes = { λ s. s.spare_bytes };

    ghost present = { λ told. absurd told };

    ghost counts_now = { λ told. absurd told };

    ghost only_now = { λ told. absurd told };

    fn length(&mut self, area: u8) -> Result<u64, Failed> {
        let Ok(length) = self.disk.length(area) else {
            return Err(fault(&mut self.faults));
        };
        Ok(length)
    }

    fn read(&mut self, area: u8, at: u64, into: &mut [u8]) -> Result<usize, Failed> {
        let Ok(count) = self.disk.read(area, at, into) else {
            return Err(fault(&mut self.faults));
        };
        Ok(count)
    }

    fn reserve(&mut self, area: u8, upto: u64) -> Result<(), Memory> {
        let calls = self.spare_calls.max(8);
        if calls > u64::MAX - self.moment {
            return Err(Memory);
        }
        self.disk.reserve(area, upto)?;
        self.spare_calls = calls;
        Ok(())
    }

    fn write(&mut self, area: u8, at: u64, bytes: &[u8]) -> Result<(), Failed> {
        self.moment += 1;
        self.spare_calls -= 1;
        if !is_within(&mut self.disk, area, at) {
            return Err(fault(&mut self.faults));
        }
        let Ok(()) = self.disk.write(area, at, bytes) else {
            return Err(fault(&mut self.faults));
        };
        Ok(())
    }

    fn cut(&mut self, area: u8, to: u64) -> Result<(), Failed> {
        self.moment += 1;
        self.spare_calls -= 1;
        if !is_within(&mut self.disk, area, to) {
            return Err(fault(&mut self.faults));
        }
        let Ok(()) = self.disk.cut(area, to) else {
            return Err(fault(&mut self.faults));
        };
        Ok(())
    }

    fn sync(&mut self) -> Result<(), Failed> {
        self.moment += 1;
        self.spare_calls -= 1;
        let Ok(()) = self.disk.sync() else {
            return Err(fault(&mut self.faults));
        };
        Ok(())
    }
}

// Whether the disk says that an area goes as far as this.
fn is_within<D: Disk>(disk: &mut D, area: u8, at: u64) -> bool
    requires { area < 2 }
    ensures within { D.tells → IsTrue result → at ≤ length (area_of area (D.seen disk.new)) }
    ensures taken { D.taken disk.new ≡ D.taken disk.old }
    ensures spare_calls { D.spare_calls disk.old ≤ D.spare_calls disk.new }
    ensures spare_bytes { D.spare_bytes disk.old ≤ D.spare_bytes disk.new }
{
    let Ok(length) = disk.length(area) else {
        return false;
    };
    at <= length
}
