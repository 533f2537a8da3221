//! Lines that come in pieces.

ghost use Rattle.std.specs.Prelude.{◌≡◌, ◌+◌, ◌<◌, ◌≤◌, ◌↔◌, IsTrue, false, [], ◌++◌, length, take};
ghost use Rattle.pc_wire.specs.Lines.{has_feed, without_return as unreturned};
ghost use Rattle.pc_wire.specs.LineFeed.{fed, Feeds, IsOver};
ghost use Rattle.pc_wire.specs.Next.{ShowsLine, ShowsNext, ShowsLast};

use crate::places::feed_place;
use arrayvec::ArrayVec;
use std::marker::Model;

/// What a feed has of the next line.
#[derive(Clone, Copy, Debug, PartialEq, Eq)]
pub enum Next<'a> {
    /// A whole line, without what ends it.
    Line(&'a [u8]),
    /// No whole line yet.
    More,
    /// The line has more bytes than the limit.
    TooLong,
}

/// Cuts bytes that come in pieces into lines. It holds one line at a time, and takes no memory.
#[derive(Drop)]
pub struct LineFeed {
    limit: u16,
    text: ArrayVec<u8, 1002>,
    is_whole: bool,
}

impl Model for LineFeed {
    ghost use Rattle.std.specs.Prelude.{◌≡◌, ◌+◌, ◌≤◌, false, length};
    ghost use Rattle.pc_wire.specs.Lines.{has_feed};
    ghost use Rattle.pc_wire.specs.LineFeed.{FeedState};

    ghost Value = { FeedState };

    ghost view = { λ f. record { limit = f.limit; text = f.text.items; is_whole = f.is_whole } };

    ghost invariant = { λ f. (f.limit ≤ 1000) × (length f.text.items ≤ f.limit + 2) × (has_feed f.text.items ≡ false) };
}

impl LineFeed {
    /// A feed of lines of at most `limit` bytes each.
    pub fn new(limit: u16) -> LineFeed
        requires { limit ≤ 1000 }
        ensures { result ≡ fed limit [] }
    {
        LineFeed {
            limit,
            text: ArrayVec::new(),
            is_whole: false,
        }
    }

    /// Takes bytes up to and with the next LF, and answers how many; none while a whole line waits.
    pub fn feed(&mut self, piece: &[u8]) -> usize
        ensures feeds { Feeds self.old self.new piece.now result }
        ensures within { result ≤ length piece.now }
        ensures some { self.old.is_whole ≡ false → 0 < length piece.now → 0 < result }
        ensures all { self.new.is_whole ≡ false → result ≡ length piece.now }
    {
        if self.is_whole {
            return 0;
        }
        let end = feed_place(piece);
        self.keep(&piece[..end]);
        if end == piece.len() {
            return end;
        }
        self.is_whole = true;
        end + 1
    }

    /// The line that waits, without the CR directly before its LF. `More` comes exactly where no LF
    /// has come, and `TooLong` exactly where the line has more than the limit's bytes.
    pub fn next(&self) -> Next<'_>
        ensures { ShowsNext self.now result }
    {
        if !self.is_whole {
            return Next::More;
        }
        within(self.limit, without_return(self.text.as_slice()))
    }

    /// Lets the line go; the next byte begins a new one.
    pub fn consume(&mut self)
        ensures { self.new ≡ fed self.old.limit [] }
    {
        self.text.clear();
        self.is_whole = false;
    }

    /// Whether the line that hasn't ended is past the limit, whatever follows.
    pub fn over(&self) -> bool
        ensures { IsTrue result ↔ IsOver self.now }
    {
        !self.is_whole && without_return(self.text.as_slice()).len() > self.limit as usize
    }

    /// At the end of an input: the line that hasn't ended, as it came; a CR at its end stays. `More`
    /// comes exactly where nothing came of it or a whole line waits, and `TooLong` exactly where it has
    /// more than the limit's bytes.
    pub fn last(&self) -> Next<'_>
        ensures { ShowsLast self.now result }
    {
        if self.is_whole || self.text.is_empty() {
            return Next::More;
        }
        within(self.limit, self.text.as_slice())
    }

    /// How many bytes came of the line, without its LF; at most two past the limit are counted.
    pub fn count(&self) -> usize
        ensures value { result ≡ length self.now.text }
        ensures bound { result ≤ 1002 }
    {
        self.text.len()
    }

    /// The most bytes of a line.
    pub(crate) fn limit(&self) -> u16
        ensures { result ≡ self.now.limit }
    {
        self.limit
    }

    /// Adds bytes to the line, as far as there is room.
    fn keep(&mut self, bytes: &[u8])
        requires { has_feed bytes.now ≡ false }
        ensures { self.new ≡ record self.old { text = take (self.old.limit + 2) (self.old.text ++ bytes.now) } }
    {
        let room = self.limit as usize + 2 - self.text.len();
        let count = room.min(bytes.len());
        let _ = self.text.try_extend_from_slice(&bytes[..count]);
    }
}

/// The line, where the limit lets it pass.
pub(crate) fn within(limit: u16, line: &[u8]) -> Next<'_>
    requires { has_feed line.now ≡ false }
    ensures { ShowsLine limit line.now result }
{
    if line.len() > limit as usize {
        return Next::TooLong;
    }
    Next::Line(line)
}

/// The bytes without the one CR at their end, if there is one.
pub(crate) fn without_return(bytes: &[u8]) -> &[u8]
    ensures { result.now ≡ unreturned bytes.now }
{
    let [front @ .., last] = bytes else {
        return bytes;
    };
    if *last == b'\r' { front } else { bytes }
}
