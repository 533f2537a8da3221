//! Bytes read ahead.

ghost use Rattle.std.specs.Prelude.{◌≡◌, ◌+◌, ◌<◌, ◌≤◌, [], IfOk, drop, length};
ghost use Rattle.std.specs.Io.KnownBytes.{prepend_known};
ghost use Rattle.pc_base.specs.Stream.{HasCause};
ghost use Rattle.pc_wire.specs.Reader.{TakesFront};
ghost use Rattle.pc_wire.specs.Reading.{Fills};

use pc_base::{Failed, Memory, Source};
use std::alloc::Global;
use std::marker::Model;

/// How many bytes a read asks for.
const ROOM: usize = 32_768;

/// Bytes that were read and aren't used yet.
#[derive(Drop)]
pub(crate) struct ReadBuffer {
    bytes: Vec<u8>,
    start: usize,
    end: usize,
}

impl Model for ReadBuffer {
    ghost use Rattle.std.specs.Prelude.{◌<◌, ◌≤◌, List, ℕ, slice_range, vec_len};

    ghost Value = { List ℕ };

    ghost view = { λ b. slice_range b.bytes.items b.start b.end };

    ghost invariant = { λ b. (0 < vec_len b.bytes) × (b.start ≤ b.end) × (b.end ≤ vec_len b.bytes) };
}

impl ReadBuffer {
    /// An empty buffer.
    pub fn new(alloc: Global) -> Result<ReadBuffer, Memory>
        ensures { IfOk result (λ buffer. buffer ≡ []) }
    {
        Ok(ReadBuffer {
            bytes: vec![in alloc; 0; ROOM]?,
            start: 0,
            end: 0,
        })
    }

    /// Reads once where nothing is ahead, and answers whether bytes are ahead now. None means that the
    /// source is at its end.
    pub fn fill<S: Source>(&mut self, source: &mut S) -> Result<bool, Failed>
        ensures bytes { Fills self.new
            (prepend_known self.old (S.left source.old))
            (prepend_known self.new (S.left source.new)) result }
        ensures front { TakesFront (S.left source.old) (S.left source.new) }
        ensures beside { S.beside source.new ≡ S.beside source.old }
        ensures cause { HasCause (S.faults source.old) (S.faults source.new) result }
    {
        if self.start < self.end {
            return Ok(true);
        }
        let Ok(count) = source.read(self.bytes.as_mut_slice()) else {
            return Err(Failed);
        };
        self.start = 0;
        self.end = count;
        Ok(count > 0)
    }

    /// The bytes ahead.
    pub fn bytes(&self) -> &[u8]
        ensures { result.now ≡ self.now }
    {
        &self.bytes[self.start..self.end]
    }

    /// Lets the first bytes go.
    pub fn skip(&mut self, count: usize)
        requires { count ≤ length self.old }
        ensures { self.new ≡ drop count self.old }
    {
        self.start += count;
    }

    /// Lets the first bytes go, up to the one at this place and with it.
    pub fn skip_past(&mut self, place: usize)
        requires { place < length self.old }
        ensures { self.new ≡ drop (place + 1) self.old }
    {
        self.start += place;
        self.start += 1;
    }
}
