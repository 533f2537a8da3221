//! Where bytes go.

ghost use Rattle.std.specs.Prelude.{◌≡◌, ℕ, ◌-◌, ◌<◌, min, List, Option, None, IfOk, OnOk, IsErr, [], length};
ghost use Rattle.std.specs.Io.{WritesAtMost};
ghost use Rattle.std.specs.Io.KnownBytes.{WriteAppends};
ghost use Rattle.pc_base.specs.Stream.{HasCause, WritesAll};

use crate::failure::Failed;
use std::alloc::Global;
use std::marker::Model;

/// A sink of bytes, as a file that is written or one end of a connection.
pub trait Sink {
    /// The bytes written, where the sink tells them.
    ghost written: { Self → Option (List ℕ) };

    /// The count of faults, which never falls.
    ghost faults: { Self → ℕ };

    /// What a write leaves as it is: of a link, the bytes left.
    ghost beside: { Self → Option (List ℕ) } = { λ _. None };

    /// Writes some bytes from the front, at least one where there is one, and answers how many.
    /// `Failed` comes only where the count of faults rose, and nothing was written then.
    fn write(&mut self, bytes: &[u8]) -> Result<usize, Failed>
        ensures bound { WritesAtMost result bytes.now }
        ensures some { 0 < length bytes.now → IfOk result (λ count. 0 < count) }
        ensures content { WriteAppends (written self.old) (written self.new) result bytes.now }
        ensures beside { beside self.new ≡ beside self.old }
        ensures cause { HasCause (faults self.old) (faults self.new) result };
}

/// Writes all of the bytes. Where it fails, a front of them was written.
pub fn write_all<K: Sink>(sink: &mut K, bytes: &[u8]) -> Result<(), Failed>
    ensures content { WritesAll (K.written sink.old) (K.written sink.new) result bytes.now }
    ensures beside { K.beside sink.new ≡ K.beside sink.old }
    ensures cause { HasCause (K.faults sink.old) (K.faults sink.new) result }
{
    let mut rest = bytes;
    while !rest.is_empty() {
        let Ok(count) = sink.write(rest) else {
            return Err(Failed);
        };
        rest = &rest[count..];
    }
    Ok(())
}

/// A sink in memory. It can take few bytes at a time, and fail at one call.
#[derive(Drop)]
pub struct MemorySink {
    bytes: Vec<u8>,
    piece: usize,
    failing: u64,
    faults: u64,
}

impl Model for MemorySink {
    ghost use Rattle.std.specs.Prelude.{◌<◌};
    ghost use Rattle.pc_base.specs.MemoryStream.{MemoryStream};

    ghost Value = { MemoryStream };

    ghost view = { λ s. record { bytes = s.bytes.items; piece = s.piece; failing = s.failing; faults = s.faults } };

    ghost invariant = { λ s. 0 < s.piece };
}

impl MemorySink {
    /// A sink with nothing written, which takes all that it is given.
    pub fn new(alloc: Global) -> MemorySink
        ensures { result ≡ record { bytes = []; piece = usize.MAX; failing = 0; faults = 0 } }
    {
        MemorySink {
            bytes: Vec::new(alloc),
            piece: usize::MAX,
            failing: 0,
            faults: 0,
        }
    }

    /// The sink, taking at most so many bytes at a time.
    pub fn in_pieces(self, piece: usize) -> MemorySink
        requires { 0 < piece }
        ensures { result ≡ record self { piece = piece } }
    {
        MemorySink { piece, ..self }
    }

    /// The sink, whose k-th write from now on fails, and no other but for want of memory.
    pub fn failing_at(self, call: u64) -> MemorySink
        ensures { result ≡ record self { failing = call } }
    {
        MemorySink {
            failing: call,
            ..self
        }
    }

    /// The bytes written.
    pub fn bytes(&self) -> &[u8]
        ensures { result.now ≡ self.now.bytes }
    {
        self.bytes.as_slice()
    }
}

impl Sink for MemorySink {
    ghost use Rattle.std.specs.Prelude.{Some};

    ghost written = { λ s. Some s.bytes };

    ghost faults = { λ s. s.faults };

    fn write(&mut self, bytes: &[u8]) -> Result<usize, Failed>
        ensures bound { WritesAtMost result bytes.now }
        ensures some { 0 < length bytes.now → IfOk result (λ count. 0 < count) }
        ensures content { WriteAppends (Some self.old.bytes) (Some self.new.bytes) result bytes.now }
        ensures cause { HasCause self.old.faults self.new.faults result }
        ensures due { self.old.failing ≡ 1 → IsErr result }
        ensures next { self.new.failing ≡ self.old.failing - 1 }
        ensures count { IfOk result (λ count. count ≡ min (length bytes.now) self.old.piece) }
        ensures calm { OnOk result (self.new.faults ≡ self.old.faults) }
        ensures piece { self.new.piece ≡ self.old.piece }
    {
        let is_due = self.failing == 1;
        self.failing = self.failing.saturating_sub(1);
        let count = bytes.len().min(self.piece);
        if is_due || self.bytes.extend_from_slice(&bytes[..count]).is_err() {
            self.faults = self.faults.saturating_add(1);
            return Err(Failed);
        }
        Ok(count)
    }
}
