//! Where bytes come from.

ghost use Rattle.std.specs.Prelude.{◌≡◌, ℕ, ◌-◌, ◌<◌, ◌↔◌, min, List, length, Option, None, IsErr, IfOk, OnOk};
ghost use Rattle.std.specs.Io.{ReadsAtMost};
ghost use Rattle.std.specs.Io.KnownBytes.{ReadConsumes};
ghost use Rattle.pc_base.specs.Stream.{HasCause};

use crate::failure::Failed;
use std::marker::Model;

/// A source of bytes, as a file that is read or one end of a connection.
pub trait Source {
    /// The bytes left, where the source tells them.
    ghost left: { Self → Option (List ℕ) };

    /// The count of faults, which never falls.
    ghost faults: { Self → ℕ };

    /// What a read leaves as it is: of a link, the bytes written.
    ghost beside: { Self → Option (List ℕ) } = { λ _. None };

    /// Reads some bytes into the front of `into` and answers how many. For a buffer that isn't
    /// empty none says that the end was reached. `Failed` comes only where the count of faults rose.
    fn read(&mut self, into: &mut [u8]) -> Result<usize, Failed>
        ensures bound { ReadsAtMost result into.new }
        ensures bytes { ReadConsumes (left self.old) (left self.new) result into.new }
        ensures beside { beside self.new ≡ beside self.old }
        ensures cause { HasCause (faults self.old) (faults self.new) result };
}

/// A source in memory. It can give few bytes at a time, and fail at one call.
#[derive(Drop)]
pub struct MemorySource<'a> {
    bytes: &'a [u8],
    piece: usize,
    failing: u64,
    faults: u64,
}

impl<'a> Model for MemorySource<'a> {
    ghost use Rattle.std.specs.Prelude.{◌<◌};
    ghost use Rattle.pc_base.specs.MemoryStream.{MemoryStream};

    ghost Value = { MemoryStream };

    ghost view = { λ s. record { bytes = s.bytes.now; piece = s.piece; failing = s.failing; faults = s.faults } };

    ghost invariant = { λ s. 0 < s.piece };
}

impl<'a> MemorySource<'a> {
    /// These bytes, as many at a time as fit.
    pub fn new(bytes: &'a [u8]) -> MemorySource<'a>
        ensures { result ≡ record { bytes = bytes.now; piece = usize.MAX; failing = 0; faults = 0 } }
    {
        MemorySource {
            bytes,
            piece: usize::MAX,
            failing: 0,
            faults: 0,
        }
    }

    /// The source, giving at most so many bytes at a time.
    pub fn in_pieces(self, piece: usize) -> MemorySource<'a>
        requires { 0 < piece }
        ensures { result ≡ record self.entry { piece = piece } }
    {
        MemorySource { piece, ..self }
    }

    /// The source, whose k-th read from now on fails, and no other.
    pub fn failing_at(self, call: u64) -> MemorySource<'a>
        ensures { result ≡ record self.entry { failing = call } }
    {
        MemorySource {
            failing: call,
            ..self
        }
    }
}

impl<'a> Source for MemorySource<'a> {
    ghost use Rattle.std.specs.Prelude.{Some};

    ghost left = { λ s. Some s.bytes };

    ghost faults = { λ s. s.faults };

    fn read(&mut self, into: &mut [u8]) -> Result<usize, Failed>
        ensures bound { ReadsAtMost result into.new }
        ensures bytes { ReadConsumes (Some self.old.bytes) (Some self.new.bytes) result into.new }
        ensures cause { HasCause self.old.faults self.new.faults result }
        ensures due { IsErr result ↔ (self.old.failing ≡ 1) }
        ensures next { self.new.failing ≡ self.old.failing - 1 }
        ensures count { IfOk result (λ count. count ≡ min (min (length into.new) self.old.piece) (length self.old.bytes)) }
        ensures calm { OnOk result (self.new.faults ≡ self.old.faults) }
        ensures piece { self.new.piece ≡ self.old.piece }
    {
        let is_due = self.failing == 1;
        self.failing = self.failing.saturating_sub(1);
        if is_due {
            self.faults = self.faults.saturating_add(1);
            return Err(Failed);
        }
        let count = into.len().min(self.piece).min(self.bytes.len());
        let (front, rest) = self.bytes.split_at(count);
        into[..count].copy_from_slice(front);
        self.bytes = rest;
        Ok(count)
    }
}
