//! The lists of lines, names and uids.

ghost use Rattle.std.specs.Prelude.{◌≡◌, IfOk};

use crate::bytes::Bytes;
use crate::failure::Memory;
use crate::line::Line;
use crate::list::List;
use crate::name::Name;
use std::alloc::Global;

/// A list of lines, as of a message or of a list in a reply.
pub type Lines = List<Line>;

/// A list of names.
pub type Names = List<Name>;

/// A list of uids.
pub type Uids = List<u32>;

/// The lines of a transcript, each without its LF.
pub type Printed = List<Bytes>;

impl List<Line> {
    /// A list of the same lines as these.
    pub fn copy_of(alloc: Global, lines: &[Line]) -> Result<Lines, Memory>
        ensures { IfOk result (λ copy. copy ≡ lines.now) }
    {
        let mut copy = Lines::new(alloc);
        for line in lines {
            copy.push(line.copy(alloc)?)?;
        }
        Ok(copy)
    }

    /// Another list of the same lines.
    pub fn copy(&self, alloc: Global) -> Result<Lines, Memory>
        ensures { IfOk result (λ copy. copy ≡ self.now) }
    {
        Lines::copy_of(alloc, self.as_slice())
    }
}
