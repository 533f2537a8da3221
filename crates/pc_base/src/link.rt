//! One end of a connection.

ghost use Rattle.std.specs.Prelude.{◌≡◌, ℕ, ◌+◌, ◌-◌, ◌<◌, ◌≤◌, ◌↔◌, ◌⊎◌, min, List, [], length, Option, is_some, IsTrue, IsErr, IfOk, OnOk, OnErr};
ghost use Rattle.std.specs.Io.{ReadsAtMost, WritesAtMost};
ghost use Rattle.std.specs.Io.KnownBytes.{ReadConsumes, WriteAppends};
ghost use Rattle.pc_base.specs.Stream.{HasCause, Rose};

use crate::failure::{Failed, Memory};
use crate::sink::Sink;
use crate::source::Source;
use std::alloc::Global;
use std::marker::Model;

/// One end of a connection. Each link is a `Source` and a `Sink`: a read leaves what was written as it
/// was, and a write what can be read.
pub trait Link {
    /// The bytes left, where the link tells them.
    ghost left: { Self → Option (List ℕ) };

    /// The bytes written, where the link tells them.
    ghost written: { Self → Option (List ℕ) };

    /// The count of faults of both, which never falls.
    ghost faults: { Self → ℕ };

    /// Reads some bytes into the front of `into` and answers how many. For a buffer that isn't
    /// empty none says that the end was reached. `Failed` comes only where the count of faults rose.
    fn read(&mut self, into: &mut [u8]) -> Result<usize, Failed>
        ensures bound { ReadsAtMost result into.new }
        ensures bytes { ReadConsumes (left self.old) (left self.new) result into.new }
        ensures beside { written self.new ≡ written self.old }
        ensures cause { HasCause (faults self.old) (faults self.new) result };

    /// Writes some bytes from the front, at least one where there is one, and answers how many.
    /// `Failed` comes only where the count of faults rose, and nothing was written then.
    fn write(&mut self, bytes: &[u8]) -> Result<usize, Failed>
        ensures bound { WritesAtMost result bytes.now }
        ensures some { 0 < length bytes.now → IfOk result (λ count. 0 < count) }
        ensures content { WriteAppends (written self.old) (written self.new) result bytes.now }
        ensures beside { left self.new ≡ left self.old }
        ensures cause { HasCause (faults self.old) (faults self.new) result };

    /// A link tells both or neither.
    ghost told: { (link : Self) → is_some (left link) ≡ is_some (written link) };
}

impl<L: Link> Source for L {
    ghost left = { λ link. L.left link };

    ghost faults = { λ link. L.faults link };

    ghost beside = { λ link. L.written link };

    fn read(&mut self, into: &mut [u8]) -> Result<usize, Failed> {
        Link::read(self, into)
    }
}

impl<L: Link> Sink for L {
    ghost written = { λ link. L.written link };

    ghost faults = { λ link. L.faults link };

    ghost beside = { λ link. L.left link };

    fn write(&mut self, bytes: &[u8]) -> Result<usize, Failed> {
        Link::write(self, bytes)
    }
}

/// A link in memory: the other end has written stated bytes. It can move few bytes at a time, and fail
/// at one call.
#[derive(Drop)]
pub struct MemoryLink<'a> {
    unread: &'a [u8],
    bytes: Vec<u8>,
    piece: usize,
    failing: u64,
    faults: u64,
}

impl<'a> Model for MemoryLink<'a> {
    ghost use Rattle.std.specs.Prelude.{◌<◌};
    ghost use Rattle.std.specs.Vec.{vec_capacity};
    ghost use Rattle.pc_base.specs.MemoryStream.{MemoryEnd};

    ghost Value = { MemoryEnd };

    ghost view = { λ l. record { unread = l.unread.now; bytes = l.bytes.items; room = vec_capacity l.bytes; piece = l.piece; failing = l.failing; faults = l.faults } };

    ghost invariant = { λ l. 0 < l.piece };
}

impl<'a> MemoryLink<'a> {
    /// A link from which these bytes can be read, with nothing written. It moves as many bytes at a
    /// time as fit.
    pub fn new(alloc: Global, unread: &'a [u8]) -> MemoryLink<'a>
        ensures { result ≡ record { unread = unread.now; bytes = []; room = 0; piece = usize.MAX; failing = 0; faults = 0 } }
    {
        MemoryLink {
            unread,
            bytes: Vec::new(alloc),
            piece: usize::MAX,
            failing: 0,
            faults: 0,
        }
    }

    /// Such a link with room for so many bytes to be written, which then want no memory.
    pub fn with_room(alloc: Global, unread: &'a [u8], room: usize) -> Result<MemoryLink<'a>, Memory>
        ensures { IfOk result (λ link. link ≡ record { unread = unread.now; bytes = []; room = room; piece = usize.MAX; failing = 0; faults = 0 }) }
    {
        Ok(MemoryLink {
            bytes: Vec::with_capacity(alloc, room)?,
            ..MemoryLink::new(alloc, unread)
        })
    }

    /// The link, moving at most so many bytes at a time.
    pub fn in_pieces(self, piece: usize) -> MemoryLink<'a>
        requires { 0 < piece }
        ensures { result ≡ record self.entry { piece = piece } }
    {
        MemoryLink { piece, ..self }
    }

    /// The link, whose k-th call from now on fails, reads and writes counted together, and no other but
    /// a write for want of memory.
    pub fn failing_at(self, call: u64) -> MemoryLink<'a>
        ensures { result ≡ record self.entry { failing = call } }
    {
        MemoryLink {
            failing: call,
            ..self
        }
    }

    /// The bytes that can still be read.
    pub fn unread(&self) -> &'a [u8]
        ensures { result.now ≡ self.now.unread }
    {
        self.unread
    }

    /// The bytes written.
    pub fn bytes(&self) -> &[u8]
        ensures { result.now ≡ self.now.bytes }
    {
        self.bytes.as_slice()
    }

    /// Counts one call more, and answers whether it fails.
    fn is_due(&mut self) -> bool
        ensures due { IsTrue result ↔ (self.old.failing ≡ 1) }
        ensures next { self.new ≡ record self.old { failing = self.old.failing - 1 } }
    {
        let is_due = self.failing == 1;
        self.failing = self.failing.saturating_sub(1);
        is_due
    }

    /// Counts a fault, and answers it.
    fn fault(&mut self) -> Failed
        ensures rest { self.new ≡ record self.old { faults = self.new.faults } }
        ensures later { self.old.faults ≤ self.new.faults }
        ensures rose { Rose self.old.faults self.new.faults }
    {
        self.faults = self.faults.saturating_add(1);
        Failed
    }
}

impl<'a> Link for MemoryLink<'a> {
    ghost use Rattle.std.specs.Prelude.{Some, refl};

    ghost left = { λ l. Some l.unread };

    ghost written = { λ l. Some l.bytes };

    ghost faults = { λ l. l.faults };

    fn read(&mut self, into: &mut [u8]) -> Result<usize, Failed>
        ensures bound { ReadsAtMost result into.new }
        ensures bytes { ReadConsumes (Some self.old.unread) (Some self.new.unread) result into.new }
        ensures beside { Some self.new.bytes ≡ Some self.old.bytes }
        ensures cause { HasCause self.old.faults self.new.faults result }
        ensures due { IsErr result ↔ (self.old.failing ≡ 1) }
        ensures next { self.new.failing ≡ self.old.failing - 1 }
        ensures count { IfOk result (λ count. count ≡ min (min (length into.new) self.old.piece) (length self.old.unread)) }
        ensures calm { OnOk result (self.new.faults ≡ self.old.faults) }
        ensures piece { self.new.piece ≡ self.old.piece }
        ensures room { self.new.room ≡ self.old.room }
    {
        if self.is_due() {
            return Err(self.fault());
        }
        let count = into.len().min(self.piece).min(self.unread.len());
        let (front, rest) = self.unread.split_at(count);
        into[..count].copy_from_slice(front);
        self.unread = rest;
        Ok(count)
    }

    fn write(&mut self, bytes: &[u8]) -> Result<usize, Failed>
        ensures bound { WritesAtMost result bytes.now }
        ensures some { 0 < length bytes.now → IfOk result (λ count. 0 < count) }
        ensures content { WriteAppends (Some self.old.bytes) (Some self.new.bytes) result bytes.now }
        ensures beside { Some self.new.unread ≡ Some self.old.unread }
        ensures cause { HasCause self.old.faults self.new.faults result }
        ensures due { self.old.failing ≡ 1 → IsErr result }
        ensures only { OnErr result ((self.old.failing ≡ 1) ⊎ (self.old.room < length self.old.bytes + min (length bytes.now) self.old.piece)) }
        ensures next { self.new.failing ≡ self.old.failing - 1 }
        ensures count { IfOk result (λ count. count ≡ min (length bytes.now) self.old.piece) }
        ensures calm { OnOk result (self.new.faults ≡ self.old.faults) }
        ensures piece { self.new.piece ≡ self.old.piece }
        ensures room { self.old.room ≤ self.new.room }
    {
        let count = bytes.len().min(self.piece);
        if self.is_due() || self.bytes.extend_from_slice(&bytes[..count]).is_err() {
            return Err(self.fault());
        }
        Ok(count)
    }

    ghost told = { λ _. refl };
}
