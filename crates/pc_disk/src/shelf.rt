//! The disks that stand in a folder in memory.

ghost use Rattle.std.specs.Prelude.{◌≡◌, [], ◌∷◌};
ghost use Rattle.std.specs.Option.{option_map};
ghost use Rattle.pc_disk.specs.Folder.{standing, without};

use crate::memory_disk::MemoryDisk;
use pc_base::StoreName;
use std::marker::Model;
use std::mem::replace;

/// Disks under their names, as a chain of places with one disk each. A disk that brings a place
/// along is put among them without memory.
#[cycle(shelf)]
#[derive(Drop)]
pub struct Shelf {
    link: Link,
}

#[cycle(shelf)]
#[derive(Drop)]
enum Link {
    End,
    Then(StoreName, MemoryDisk, Box<Shelf>),
}

impl Model for Shelf {
    ghost use Rattle.std.specs.Prelude.{List, length};
    ghost use Rattle.pc_base.specs.declared.name.StoreName.{StoreName as StoreNames};
    ghost use Rattle.pc_disk.specs.Memory.{DiskState};

    ghost Value = { List (StoreNames × DiskState) };

    ghost use Rattle.pc_disk.specs.Shelf.{listed};

    ghost view = { λ s. listed s.link };

    ghost size = { length };

    ghost use Rattle.std.proofs.Common.{arith};

    ghost size_decreases = { λ a h. Prim.grind arith };
}

impl Shelf {
    /// No disks.
    pub fn new() -> Shelf
        ensures { result ≡ [] }
    {
        Shelf { link: Link::End }
    }

    /// Puts a disk under a name, into the place that it brought along.
    pub fn put(self, name: StoreName, disk: MemoryDisk, mut place: Box<Shelf>) -> Shelf
        ensures { result ≡ (name, disk) ∷ self }
    {
        *place = self;
        Shelf {
            link: Link::Then(name, disk, place),
        }
    }

    /// Takes out what stands under a name: the others, and the disk with its place.
    pub fn without(self, name: &StoreName) -> (Shelf, Option<(MemoryDisk, Box<Shelf>)>)
        ensures others { result.0 ≡ without name.now self }
        ensures taken { option_map (λ found. found.0) result.1 ≡ standing name.now self }
    {
        let Link::Then(stands, disk, mut place) = self.link else {
            return (Shelf::new(), None);
        };
        let (below, found) = replace(&mut *place, Shelf::new()).without(name);
        if stands == *name {
            return (below, Some((disk, place)));
        }
        *place = below;
        let link = Link::Then(stands, disk, place);
        (Shelf { link }, found)
    }
}
