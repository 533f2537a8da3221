//! A disk and the place in which it stands once it is given back.

ghost use Rattle.std.specs.Prelude.{◌≡◌};

use crate::disk::Disk;
use crate::memory_disk::MemoryDisk;
use crate::shelf::Shelf;
use pc_base::{Failed, Memory};
use std::marker::Model;
use std::mem::replace;

/// A disk that a folder in memory handed out. It keeps its place, so that giving it back takes no
/// memory.
#[derive(Drop)]
pub struct Placed<D> {
    pub(crate) disk: D,
    pub(crate) place: Box<Shelf>,
}

impl<D> Model for Placed<D> {
    ghost Value = { D };

    ghost view = { λ placed. placed.disk };
}

impl Placed<MemoryDisk> {
    /// Puts another disk into the place, and answers the one that was there.
    pub fn exchange(&mut self, disk: MemoryDisk) -> MemoryDisk
        ensures there { self.new ≡ disk }
        ensures was { result ≡ self.old }
    {
        replace(&mut self.disk, disk)
    }
}

impl<D: Disk> Disk for Placed<D> {
    ghost tells = { D.tells };

    ghost tells_due = { D.tells_due };

    ghost seen = { D.seen };

    ghost may_leave = { D.may_leave };

    ghost left_since = { D.left_since };

    ghost moment = { D.moment };

    ghost due = { D.due };

    ghost faults = { D.faults };

    ghost taken = { D.taken };

    ghost spare_calls = { D.spare_calls };

    ghost spare_bytes = { D.spare_bytes };

    ghost present = { D.present };

    ghost counts_now = { D.counts_now };

    ghost only_now = { D.only_now };

    fn length(&mut self, area: u8) -> Result<u64, Failed> {
        self.disk.length(area)
    }

    fn read(&mut self, area: u8, at: u64, into: &mut [u8]) -> Result<usize, Failed> {
        self.disk.read(area, at, into)
    }

    fn reserve(&mut self, area: u8, upto: u64) -> Result<(), Memory> {
        self.disk.reserve(area, upto)
    }

    fn write(&mut self, area: u8, at: u64, bytes: &[u8]) -> Result<(), Failed> {
        self.disk.write(area, at, bytes)
    }

    fn cut(&mut self, area: u8, to: u64) -> Result<(), Failed> {
        self.disk.cut(area, to)
    }

    fn sync(&mut self) -> Result<(), Failed> {
        self.disk.sync()
    }
}
