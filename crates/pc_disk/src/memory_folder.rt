//! A folder of disks in memory.

ghost use Rattle.std.specs.Prelude.{◌≡◌, ◌<◌, IfOk, OnOk, OnErr, IsErr, IsSome};
ghost use Rattle.pc_base.specs.Stream.{HasCause};
ghost use Rattle.pc_disk.specs.Folder.{standing};
ghost use Rattle.pc_disk.specs.MemoryFolder.{empty_folder, handed, taken_from, refused_by, given_to};

use crate::folder::Folder;
use crate::memory_disk::{MemoryDisk, fault};
use crate::placed::Placed;
use crate::shelf::Shelf;
use pc_base::{Failed, StoreName};
use std::alloc::Global;
use std::marker::Model;
use std::mem::replace;

/// A folder of disks in memory.
#[derive(Drop)]
pub struct MemoryFolder {
    alloc: Global,
    shelf: Shelf,
    failing: u64,
    faults: u64,
}

impl Model for MemoryFolder {
    ghost use Rattle.pc_disk.specs.MemoryFolder.{FolderState};

    ghost Value = { FolderState };

    ghost view = { λ f. record { disks = f.shelf; failing = f.failing; faults = f.faults } };
}

impl MemoryFolder {
    /// A folder in which no disk stands.
    pub fn new(alloc: Global) -> MemoryFolder
        ensures { result ≡ empty_folder }
    {
        MemoryFolder {
            alloc,
            shelf: Shelf::new(),
            failing: 0,
            faults: 0,
        }
    }

    /// Lets the k-th call of `take` from now fail.
    pub fn fail_at(&mut self, k: u32)
        requires { 0 < k }
        ensures { self.new ≡ record self.old { failing = k } }
    {
        self.failing = u64::from(k);
    }
}

#[tactic(auto, using(crate::specs::FolderLaws::without_none))]
impl Folder for MemoryFolder {
    ghost use Rattle.std.specs.Prelude.{⊤};

    type D = Placed<MemoryDisk>;

    ghost tells = { ⊤ };

    ghost under = { λ f name. standing name f.disks };

    ghost faults = { λ f. f.faults };

    fn take(&mut self, name: &StoreName) -> Result<Placed<MemoryDisk>, Failed>
        ensures disk { IfOk result (λ disk. disk ≡ handed (standing name.now self.old.disks)) }
        ensures taken { OnOk result (self.new ≡ taken_from name.now self.old) }
        ensures refused { OnErr result (self.new ≡ refused_by self.old) }
        ensures fails { self.old.failing ≡ 1 → IsErr result }
        ensures stood { IsSome (standing name.now self.old.disks) → IsErr result → self.old.failing ≡ 1 }
        ensures cause { HasCause self.old.faults self.new.faults result }
    {
        let is_due = self.failing == 1;
        self.failing = self.failing.saturating_sub(1);
        if is_due {
            return Err(fault(&mut self.faults));
        }
        let (others, found) = replace(&mut self.shelf, Shelf::new()).without(name);
        self.shelf = others;
        if let Some((mut disk, place)) = found {
            disk.forget_faults();
            return Ok(Placed { disk, place });
        }
        let Ok(place) = Box::new(self.alloc, Shelf::new()) else {
            return Err(fault(&mut self.faults));
        };
        Ok(Placed {
            disk: MemoryDisk::new(self.alloc),
            place,
        })
    }

    fn back(&mut self, name: &StoreName, disk: Placed<MemoryDisk>)
        ensures { self.new ≡ given_to name.now disk self.old }
    {
        let Placed { disk, place } = disk;
        self.faults = self.faults.saturating_add(disk.faults());
        let (others, _) = replace(&mut self.shelf, Shelf::new()).without(name);
        self.shelf = others.put(*name, disk, place);
    }
}
