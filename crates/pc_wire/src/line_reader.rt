//! Lines of a source, read through a buffer.

ghost use Rattle.std.specs.Prelude.{◌≡◌, ℕ, ◌≤◌, List, [], drop, take, IfOk, IfSome};
ghost use Rattle.pc_wire.specs.Lines.{without_return as without_ending};
ghost use Rattle.std.specs.Io.KnownBytes.{prepend_known};
ghost use Rattle.pc_base.specs.Stream.{HasCause};
ghost use Rattle.pc_wire.specs.LineFeed.{Feeds};
ghost use Rattle.pc_wire.specs.Next.{ShowsLine};
ghost use Rattle.pc_wire.specs.Reader.{TakesFront, no_line, waiting, Fetches, ShowsWaiting};
ghost use Rattle.pc_wire.specs.Reading.{state_of, IsHeld, LiesAhead, LineStops, Seeks};

use crate::fetched::{Fetched, Held};
use crate::line_feed::{LineFeed, Next, within, without_return};
use crate::places::feed_place;
use crate::read_buffer::ReadBuffer;
use pc_base::{Failed, Memory, Source};
use std::alloc::Global;
use std::marker::Model;

/// Reads the lines of a source one after another. Only `new` takes memory.
#[derive(Drop)]
pub struct LineReader {
    buffer: ReadBuffer,
    feed: LineFeed,
    held: Held,
}

impl Model for LineReader {
    ghost use Rattle.pc_wire.specs.Reader.{ReaderState};
    ghost use Rattle.pc_wire.specs.Reading.{state_of, IsHeld, LiesAhead};

    ghost Value = { ReaderState };

    ghost view = { λ r. state_of r.held r.feed r.buffer };

    ghost invariant = { λ r. IsHeld r.held r.feed × LiesAhead r.held r.buffer };
}

impl LineReader {
    /// A reader of lines of at most `limit` bytes each.
    pub fn new(alloc: Global, limit: u16) -> Result<LineReader, Memory>
        requires { limit ≤ 1000 }
        ensures { IfOk result (λ reader. reader ≡ record { limit = limit; ahead = []; waits = no_line }) }
    {
        Ok(LineReader {
            buffer: ReadBuffer::new(alloc)?,
            feed: LineFeed::new(limit),
            held: Held::Begun,
        })
    }

    /// Reads on until a line waits, the line is past the limit whatever follows (`Overlong`), or the
    /// input ends. A line past the limit waits only where the read that took it there gave its LF too,
    /// where a call after `Overlong` came to its end, or where the input ends with a CR that is its one
    /// byte past the limit. After `Failed` another call goes on where this one stopped.
    pub fn fetch<S: Source>(&mut self, source: &mut S) -> Result<Fetched, Failed>
        requires { self.old.waits ≡ no_line }
        ensures limit { self.new.limit ≡ self.old.limit }
        ensures lines { Fetches self.old self.new (S.left source.old) (S.left source.new) result }
        ensures front { TakesFront (S.left source.old) (S.left source.new) }
        ensures beside { S.beside source.new ≡ S.beside source.old }
        ensures cause { HasCause (S.faults source.old) (S.faults source.new) result }
    {
        // Most lines lie whole in what was read ahead, and are shown where they are.
        if let Some(stop) = line_ahead(&self.buffer, &self.feed) {
            self.held = Held::Ahead { stop };
            return Ok(Fetched::Waits);
        }
        let (held, fetched) = seek_line(&mut self.buffer, &mut self.feed, source);
        self.held = held;
        fetched
    }

    /// The line that waits. `More` comes exactly where none does, and `TooLong` exactly where the line
    /// has more than the limit's bytes.
    pub fn line(&self) -> Next<'_>
        ensures shown { ShowsWaiting self.now.limit self.now.waits result }
        ensures fetched { (line : List ℕ) → self.now.waits ≡ waiting self.now.limit line →
            ShowsLine self.now.limit line result }
    {
        match self.held {
            Held::Begun => Next::More,
            Held::Whole => self.feed.next(),
            Held::Last => self.feed.last(),
            Held::Ahead { stop } => shown_ahead(&self.buffer, stop, self.feed.limit()),
        }
    }

    /// Lets the line that waits go, if one does.
    pub fn consume(&mut self)
        ensures { self.new ≡ record self.old { waits = no_line } }
    {
        match self.held {
            Held::Begun => {}
            Held::Whole => self.feed.consume(),
            Held::Last => self.feed.consume(),
            Held::Ahead { stop } => self.buffer.skip_past(stop),
        }
        self.held = Held::Begun;
    }
}

/// The place of the LF that ends the next line, where the whole line is read ahead and the feed has
/// nothing of it.
fn line_ahead(buffer: &ReadBuffer, feed: &LineFeed) -> Option<usize>
    requires { IsHeld Held.Begun feed.now }
    ensures { IfSome result (λ stop. IsHeld (Held.Ahead stop) feed.now × LineStops stop buffer.now) }
{
    if feed.count() > 0 {
        return None;
    }
    let bytes = buffer.bytes();
    let stop = feed_place(bytes);
    if stop == bytes.len() {
        return None;
    }
    Some(stop)
}

/// The line in front of the buffer, up to the LF at this place.
fn shown_ahead(buffer: &ReadBuffer, stop: usize, limit: u16) -> Next<'_>
    requires { LineStops stop buffer.now }
    ensures { ShowsLine limit (without_ending (take stop buffer.now)) result }
{
    within(limit, without_return(&buffer.bytes()[..stop]))
}

/// Reads up to an LF, past the limit, or to the end. Answers what the feed holds now, and what
/// `fetch` answers.
fn seek_line<S: Source>(
    buffer: &mut ReadBuffer,
    feed: &mut LineFeed,
    source: &mut S,
) -> (Held, Result<Fetched, Failed>)
    requires { IsHeld Held.Begun feed.old }
    ensures held { IsHeld result.0 feed.new }
    ensures ahead { LiesAhead result.0 buffer.new }
    ensures limit { feed.new.limit ≡ feed.old.limit }
    ensures lines { Fetches
        (state_of Held.Begun feed.old buffer.old) (state_of result.0 feed.new buffer.new)
        (S.left source.old) (S.left source.new) result.1 }
    ensures front { TakesFront (S.left source.old) (S.left source.new) }
    ensures beside { S.beside source.new ≡ S.beside source.old }
    ensures cause { HasCause (S.faults source.old) (S.faults source.new) result.1 }
{
    let Ok(fetched) = seek_feed(buffer, feed, source) else {
        return (Held::Begun, Err(Failed));
    };
    match fetched {
        Fetched::Waits => (Held::Whole, Ok(Fetched::Waits)),
        Fetched::End => match feed.last() {
            Next::More => (Held::Begun, Ok(Fetched::End)),
            _ => (Held::Last, Ok(Fetched::Waits)),
        },
        Fetched::Overlong => (Held::Begun, Ok(Fetched::Overlong)),
    }
}

/// Feeds what is ahead and what the source gives, up to an LF, past the limit, or to the end.
fn seek_feed<S: Source>(
    buffer: &mut ReadBuffer,
    feed: &mut LineFeed,
    source: &mut S,
) -> Result<Fetched, Failed>
    requires { IsHeld Held.Begun feed.old }
    ensures bytes { Seeks feed.old.limit feed.old.text feed.new
        (prepend_known buffer.old (S.left source.old))
        (prepend_known buffer.new (S.left source.new)) result }
    ensures drained { result ≡ Ok Fetched.End → buffer.new ≡ [] }
    ensures front { TakesFront (S.left source.old) (S.left source.new) }
    ensures beside { S.beside source.new ≡ S.beside source.old }
    ensures cause { HasCause (S.faults source.old) (S.faults source.new) result }
{
    while buffer.fill(source)? {
        if feed_ahead(buffer, feed) {
            return Ok(Fetched::Waits);
        }
        if feed.over() {
            return Ok(Fetched::Overlong);
        }
    }
    Ok(Fetched::End)
}

/// Feeds what is ahead, up to an LF, and answers whether one came.
fn feed_ahead(buffer: &mut ReadBuffer, feed: &mut LineFeed) -> bool
    ensures whole { result ≡ feed.new.is_whole }
    ensures bytes { (count : ℕ)
        × (Feeds feed.old feed.new buffer.old count × (buffer.new ≡ drop count buffer.old)) }
{
    let count = feed.feed(buffer.bytes());
    buffer.skip(count);
    !matches!(feed.next(), Next::More)
}

#[cfg(test)]
mod tests;
