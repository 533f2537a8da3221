//! Which of two areas counts.

ghost use Rattle.std.specs.Prelude.{◌≡◌, ℕ, ◌+◌, ◌<◌, ◌≤◌, IfOk, Option};
ghost use Rattle.pc_base.specs.Stream.{Rose};
ghost use Rattle.pc_disk.specs.Images.{Images, area_of};
ghost use Rattle.pc_log.specs.declared.head.Numbers.{Numbers};
ghost use Rattle.pc_log.specs.Untouched.{Untouched};
ghost use Rattle.pc_store.specs.Opening.{DueOrTaken, OnDevice};
ghost use Rattle.pc_store.specs.Reading.{Counts, Peeked};

use crate::reading::in_area;
use pc_base::StoreFault;
use pc_disk::Disk;
use pc_log::{Numbers, peek};

/// Where an area tells its generation.
const GENERATION_PLACE: u64 = 10;

/// The area that counts. Nothing behind the numbers of the two heads is read.
pub(crate) fn current<D: Disk>(disk: &mut D, kind: u8) -> Result<u8, StoreFault>
    ensures counts { D.tells → Counts kind (D.seen disk.old) result }
    ensures within { IfOk result (λ index. index < 2) }
    ensures untouched { Untouched D.Disk.own disk.old disk.new }
    ensures cause { OnDevice result (Rose (D.faults disk.old) (D.faults disk.new)) }
    ensures due { D.tells_due → OnDevice result (DueOrTaken (D.due disk.old) (D.moment disk.old) (D.taken disk.old) 60) }
    ensures taken { D.taken disk.new ≤ D.taken disk.old + 60 }
{
    let first = peek_at(disk, 0, kind)?;
    let second = peek_at(disk, 1, kind)?;
    greater(first, second)
}

/// The numbers in the head of an area, where it is made.
fn peek_at<D: Disk>(disk: &mut D, area: u8, kind: u8) -> Result<Option<Numbers>, StoreFault>
    requires { area < 2 }
    ensures peeked { D.tells → Peeked kind area (area_of area (D.seen disk.old)) result }
    ensures untouched { Untouched D.Disk.own disk.old disk.new }
    ensures cause { OnDevice result (Rose (D.faults disk.old) (D.faults disk.new)) }
    ensures due { D.tells_due → OnDevice result (DueOrTaken (D.due disk.old) (D.moment disk.old) (D.taken disk.old) 30) }
    ensures taken { D.taken disk.new ≤ D.taken disk.old + 30 }
{
    match peek(disk, area, kind) {
        Ok(numbers) => Ok(numbers),
        Err(fault) => Err(in_area(area, fault)),
    }
}

/// The area of the greater generation, of two with these numbers where they are made.
fn greater(first: Option<Numbers>, second: Option<Numbers>) -> Result<u8, StoreFault>
    ensures counts { (kind : ℕ) (images : Images) → Peeked kind 0 (area_of 0 images) (Ok first) → Peeked kind 1 (area_of 1 images) (Ok second) → Counts kind images result }
    ensures within { IfOk result (λ index. index < 2) }
    ensures bytes { OnDevice result ⊥ }
{
    match (first, second) {
        (None, None) => Err(StoreFault::NotMade),
        (Some(_), None) => Ok(0),
        (None, Some(_)) => Ok(1),
        (Some(first), Some(second)) => {
            if first.generation == second.generation {
                return Err(StoreFault::Malformed {
                    area: 1,
                    place: GENERATION_PLACE,
                });
            }
            Ok(u8::from(first.generation < second.generation))
        }
    }
}
