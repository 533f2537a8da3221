//! A line of content: a line of a message, of a list, or of a transcript.

ghost use Rattle.std.specs.Prelude.{◌≡◌, ◌<◌, ◌≤◌, length, Contains, IfOk, IsTrue};
ghost use Rattle.pc_base.specs.Line.{is_line as fits, has_feed, LineOutcome};

use crate::failure::Memory;
use std::alloc::Global;
use std::marker::Model;

/// At most 1,000 bytes without LF.
#[derive(Drop)]
pub struct Line {
    bytes: Vec<u8>,
}

impl Model for Line {
    ghost use Rattle.std.specs.Prelude.{ℕ, List, IsTrue};
    ghost use Rattle.pc_base.specs.Line.{is_line};

    ghost Value = { List ℕ };

    ghost view = { λ line. line.bytes.items };

    ghost invariant = { λ line. IsTrue (is_line line.bytes.items) };
}

/// Why bytes are no line.
#[derive(Clone, Copy, Debug, PartialEq, Eq)]
pub enum LineFault {
    /// They are more than 1,000.
    TooLong,
    /// An LF is among them.
    HasLf,
    /// Want of memory.
    Memory,
}

impl Line {
    /// A copy of these bytes. `TooLong` comes exactly past 1,000 bytes, and `HasLf` exactly where
    /// they have an LF and aren't too long.
    pub fn copy_of(alloc: Global, bytes: &[u8]) -> Result<Line, LineFault>
        ensures { LineOutcome bytes.now result }
    {
        if bytes.len() > 1000 {
            return Err(LineFault::TooLong);
        }
        if bytes.contains(&b'\n') {
            return Err(LineFault::HasLf);
        }
        let Ok(bytes) = Vec::from_slice(alloc, bytes) else {
            return Err(LineFault::Memory);
        };
        Ok(Line { bytes })
    }

    /// The line of bytes that are known to be one.
    pub fn of(alloc: Global, bytes: &[u8]) -> Result<Line, Memory>
        requires { IsTrue (fits bytes.now) }
        ensures { IfOk result (λ line. line ≡ bytes.now) }
    {
        match Line::copy_of(alloc, bytes) {
            Ok(line) => Ok(line),
            Err(LineFault::Memory) => Err(Memory),
            Err(_) => unreachable!(),
        }
    }

    /// Another line of the same bytes.
    pub fn copy(&self, alloc: Global) -> Result<Line, Memory>
        ensures { IfOk result (λ copy. copy ≡ self.now) }
    {
        Line::of(alloc, self.bytes())
    }

    /// The bytes of the line.
    pub fn bytes(&self) -> &[u8]
        ensures value { result.now ≡ self.now }
        ensures line { IsTrue (fits self.now) }
    {
        self.bytes.as_slice()
    }
}
