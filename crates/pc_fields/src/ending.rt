//! The end of reading.

ghost use Rattle.std.specs.Prelude.{◌≡◌, ◌≤◌};
ghost use Rattle.pc_base.specs.declared.failure.ReadFault.TheVariants as faults;
ghost use Rattle.pc_fields.specs.Ending.{IsWithin, ended};

use crate::cursor::Halt;
use pc_base::ReadFault;

/// What was read of so many bytes, where so many of them are left. `Malformed` names the first that
/// is left, unless all were read.
pub fn end<T: Drop>(read: Result<T, Halt>, size: usize, left: usize) -> Result<T, ReadFault>
    requires { IsWithin read size left }
    ensures { result ≡ ended read size left }
{
    match read {
        Ok(value) => {
            if left > 0 {
                return Err(fault_at(size - left));
            }
            Ok(value)
        }
        Err(halt) => match halt {
            Halt::NoField => Err(fault_at(size - left)),
            Halt::Memory => Err(ReadFault::Memory),
        },
    }
}

/// Bytes are malformed at this place.
fn fault_at(place: usize) -> ReadFault
    ensures { result ≡ faults.Malformed place }
{
    ReadFault::Malformed {
        place: place as u64,
    }
}
