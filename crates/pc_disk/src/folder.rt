//! A folder of disks, each under the name of a store.

ghost use Rattle.std.specs.Prelude.{◌≡◌, ℕ, ◌+◌, ◌-◌, ◌^◌, min, Option, Some, None, IfOk, OnOk, OnErr};
ghost use Rattle.pc_base.specs.declared.name.StoreName.{StoreName as StoreNames};
ghost use Rattle.pc_base.specs.Stream.{HasCause};
ghost use Rattle.pc_disk.specs.Folder.{IsHanded, IsDueAlike, SameBut, SameAll};

use crate::disk::Disk;
use pc_base::{Failed, StoreName};

/// A folder of disks. A disk is taken out of it under its name, and given back.
pub trait Folder {
    type D: Disk;

    /// Whether the folder tells its disks.
    ghost tells: { Type 0 };

    /// The disk that stands under a name.
    ghost under: { Self → StoreNames → Option Self.D };

    /// The count of faults, which never falls.
    ghost faults: { Self → ℕ };

    /// Takes the disk of this name out, or an empty one where none stands there. Its own count of
    /// faults is 0. `Failed` comes only where the folder's count rose, and then nothing was taken.
    fn take(&mut self, name: &StoreName) -> Result<Self::D, Failed>
        ensures handed { tells → Self.D.tells → IfOk result (λ disk. IsHanded Self.D.seen Self.D.may_leave (under self.old name.now) disk) }
        ensures due { tells → Self.D.tells_due → IfOk result (λ disk. IsDueAlike Self.D.moment Self.D.due (under self.old name.now) disk) }
        ensures gone { tells → OnOk result (under self.new name.now ≡ None) }
        ensures others { tells → SameBut name.now (under self.old) (under self.new) }
        ensures kept { tells → OnErr result (SameAll (under self.old) (under self.new)) }
        ensures calm { IfOk result (λ disk. Self.D.faults disk ≡ 0) }
        ensures cause { HasCause (faults self.old) (faults self.new) result };

    /// Puts the disk under this name, in place of one that stands there. The folder's count rises
    /// by that of the disk. It takes no memory.
    fn back(&mut self, name: &StoreName, disk: Self::D)
        ensures stands { tells → under self.new name.now ≡ Some disk }
        ensures others { tells → SameBut name.now (under self.old) (under self.new) }
        ensures counted { faults self.new ≡ min (faults self.old + Self.D.faults disk) (2 ^ 64 - 1) };
}
