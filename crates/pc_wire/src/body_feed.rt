//! Bodies that come line by line.

ghost use Rattle.std.specs.Prelude.{◌≡◌, ◌≢◌, [], ◌∷◌, ◌++◌, ◌&&◌, nat_le, IfOk, IsTrue};
ghost use Rattle.std.specs.Option.{option_copied};
ghost use Rattle.pc_base.specs.Line.{is_line as fits};
ghost use Rattle.pc_wire.specs.BodyFeed.{after, sent_of, content_of, is_dot as is_single, joined, Joins, Ends, TakesLine, is_refused as refused};

use crate::line_feed::Next;
use pc_base::{Line, Lines, Memory};
use std::alloc::Global;
use std::marker::Model;
use std::mem;

/// What a line is answered.
#[derive(Drop)]
pub enum BodyStep {
    /// The body goes on.
    More,
    /// The lines of the whole body.
    Whole(Lines),
    /// Some line of the body was past its limit.
    LineTooLong,
    /// The body has too many lines or too many bytes, and no line past its limit.
    TooLarge,
}

/// Gathers the lines of a body up to the dot that ends it. It keeps no more than its limits.
#[derive(Drop)]
pub struct BodyFeed {
    alloc: Global,
    most_bytes: u32,
    most_lines: u32,
    size: u32,
    so_far: Result<BodyStep, Memory>,
}

impl Model for BodyFeed {
    ghost use Rattle.pc_wire.specs.BodyFeed.{BodyState};

    ghost Value = { BodyState };

    ghost use Rattle.pc_wire.specs.BodyFeed.{IsSized};

    ghost view = { λ f. record { most_bytes = f.most_bytes; most_lines = f.most_lines; so_far = f.so_far } };

    ghost invariant = { λ f. IsSized f.so_far f.size };
}

impl BodyFeed {
    /// A feed of bodies of at most so many bytes and lines. A line counts its bytes without an added
    /// dot, and two for its end.
    pub fn new(alloc: Global, bytes: u32, lines: u32) -> BodyFeed
        ensures { result ≡ after bytes lines [] }
    {
        BodyFeed {
            alloc,
            most_bytes: bytes,
            most_lines: lines,
            size: 0,
            so_far: Ok(BodyStep::Whole(Lines::new(alloc))),
        }
    }

    /// Takes the next line that a line feed shows. Before the single dot the answer is `More`, and at
    /// the dot one of the others; the line behind it begins a new body. `Memory` comes at the line that
    /// couldn't be kept, and again at the dot: the lines between are dropped.
    pub fn line(&mut self, next: Next<'_>) -> Result<BodyStep, Memory>
        requires { next ≢ Next.More }
        ensures { TakesLine self.old (sent_of next.entry) self.new result }
    {
        let Some(line) = line_of(next) else {
            self.refuse();
            return Ok(BodyStep::More);
        };
        if is_dot(line) {
            return self.finish();
        }
        self.join(line)
    }

    /// Whether some line was past its limit or the lines pass one of the two numbers, so that the dot
    /// will be refused whatever comes before it.
    pub fn is_refused(&self) -> bool
        ensures { result ≡ refused self.now.so_far }
    {
        matches!(
            &self.so_far,
            Ok(BodyStep::LineTooLong) | Ok(BodyStep::TooLarge)
        )
    }

    /// The answer to the dot.
    fn finish(&mut self) -> Result<BodyStep, Memory>
        ensures { Ends self.old self.new result }
    {
        self.size = 0;
        mem::replace(
            &mut self.so_far,
            Ok(BodyStep::Whole(Lines::new(self.alloc))),
        )
    }

    /// Counts a line in that is past its limit.
    fn refuse(&mut self)
        ensures { self.new ≡ joined self.old None }
    {
        if self.so_far.is_ok() {
            self.so_far = Ok(BodyStep::LineTooLong);
        }
    }

    /// Counts a line in that isn't past its limit.
    fn join(&mut self, line: &[u8]) -> Result<BodyStep, Memory>
        requires { IsTrue (fits line.now) }
        ensures { Joins self.old (Some line.now) self.new result }
    {
        // Where the line can't be kept, want of memory stands.
        let lines = match mem::replace(&mut self.so_far, Err(Memory)) {
            Ok(BodyStep::Whole(lines)) => lines,
            other => {
                self.so_far = other;
                return Ok(BodyStep::More);
            }
        };
        let line = content(line);
        let size = u64::from(self.size) + line.len() as u64 + 2;
        let count = lines.as_slice().len() as u64 + 1;
        if !is_within(self.most_bytes, self.most_lines, size, count) {
            self.so_far = Ok(BodyStep::TooLarge);
            return Ok(BodyStep::More);
        }
        self.so_far = Ok(BodyStep::Whole(keep(self.alloc, lines, line)?));
        self.size = size as u32;
        Ok(BodyStep::More)
    }
}

/// The line that is shown. Bytes that no `Line` holds count as past the limit.
fn line_of(next: Next<'_>) -> Option<&[u8]>
    ensures { option_copied result ≡ sent_of next.entry }
{
    match next {
        Next::Line(bytes) if is_line(bytes) => Some(bytes),
        _ => None,
    }
}

/// Whether the bytes can be a line.
fn is_line(bytes: &[u8]) -> bool
    ensures { result ≡ fits bytes.now }
{
    bytes.len() <= 1000 && !bytes.contains(&b'\n')
}

/// Whether this is the line that ends a body.
fn is_dot(line: &[u8]) -> bool
    ensures { result ≡ is_single line.now }
{
    matches!(line, [b'.'])
}

/// What a sent line carries: it, without one dot in front.
fn content(line: &[u8]) -> &[u8]
    ensures { result.now ≡ content_of line.now }
{
    match line {
        [b'.', rest @ ..] => rest,
        _ => line,
    }
}

/// Whether lines of this size and count pass neither number.
fn is_within(most_bytes: u32, most_lines: u32, size: u64, count: u64) -> bool
    ensures { result ≡ (nat_le size most_bytes && nat_le count most_lines) }
{
    size <= u64::from(most_bytes) && count <= u64::from(most_lines)
}

/// The lines with a copy of one more.
fn keep(alloc: Global, mut lines: Lines, line: &[u8]) -> Result<Lines, Memory>
    requires { IsTrue (fits line.now) }
    ensures { IfOk result (λ kept. kept ≡ lines ++ line.now ∷ []) }
{
    let Ok(line) = Line::copy_of(alloc, line) else {
        return Err(Memory);
    };
    lines.push(line)?;
    Ok(lines)
}

#[cfg(test)]
mod tests;
