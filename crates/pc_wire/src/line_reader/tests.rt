//! Tests of reading lines in pieces, at the limit, and over a fault.

ghost use Rattle.std.specs.Prelude.{◌≡◌};
ghost use Rattle.pc_wire.specs.Reader.{no_line};

use super::LineReader;
use crate::fetched::Fetched;
use crate::line_feed::Next;
use pc_base::{Failed, MemorySource, Source};
use std::alloc::Global;
use std::process::Abort;
use std::test::Fail;

const TEXT: &[u8] = b"one\r\n\ntwo\r\r\n\rthree\nlast\r";

const LINES: [&[u8]; 5] = [b"one", b"", b"two\r", b"\rthree", b"last\r"];

/// Gives `x` without end, and doesn't tell its bytes.
#[derive(Drop)]
struct Endless {
    /// The most bytes of a read.
    piece: usize,
    /// How many reads there were.
    reads: u32,
}

impl Source for Endless {
    ghost use Rattle.std.specs.Prelude.{None};

    ghost left = { λ s. None };

    ghost faults = { λ s. 0 };

    fn read(&mut self, into: &mut [u8]) -> Result<usize, Failed> {
        let count = into.len().min(self.piece);
        into[..count].fill(b'x');
        self.reads = self.reads.saturating_add(1);
        Ok(count)
    }
}

/// Fetches a line, again where a read failed, and answers how many did.
fn failures_before_line<S: Source>(rt: &impl Abort, reader: &mut LineReader, source: &mut S) -> u32
    requires { reader.old.waits ≡ no_line }
{
    if reader.fetch(source) == Ok(Fetched::Waits) {
        return 0;
    }
    assert_eq!(rt; reader.fetch(source), Ok(Fetched::Waits));
    1
}

/// Reads all lines of the text, and answers how many reads failed.
fn failures_in_lines(rt: &impl Abort, reader: &mut LineReader, source: &mut MemorySource) -> u32
    requires { reader.old.waits ≡ no_line }
    ensures { reader.new.waits ≡ no_line }
{
    let mut failures = 0;
    for line in LINES {
        failures = failures_before_line(rt, reader, source).saturating_add(failures);
        assert_eq!(rt; reader.line(), Next::Line(line));
        reader.consume();
    }
    failures
}

#[test]
fn pieces_of_every_size_give_the_same_lines(rt: HostRuntime) -> Result<(), Fail> {
    for piece in 1..=TEXT.len() {
        let mut source = MemorySource::new(TEXT).in_pieces(piece);
        let mut reader = LineReader::new(rt.alloc(), 1_000)?;
        assert_eq!(rt;
            failures_in_lines(&rt, &mut reader, &mut source),
            0,
            "in pieces of {piece}"
        );
        assert_eq!(rt; reader.fetch(&mut source), Ok(Fetched::End));
        assert_eq!(rt; reader.line(), Next::More);
    }
    Ok(())
}

#[test]
fn goes_on_after_a_read_that_failed(rt: HostRuntime) -> Result<(), Fail> {
    for call in 1..=9 {
        let mut source = MemorySource::new(TEXT).in_pieces(3).failing_at(call);
        let mut reader = LineReader::new(rt.alloc(), 1_000)?;
        assert_eq!(rt;
            failures_in_lines(&rt, &mut reader, &mut source),
            1,
            "at call {call}"
        );
        assert_eq!(rt; reader.fetch(&mut source), Ok(Fetched::End));
    }
    let mut source = MemorySource::new(b"").failing_at(1);
    let mut reader = LineReader::new(rt.alloc(), 1_000)?;
    assert_eq!(rt; reader.fetch(&mut source), Err(Failed));
    assert_eq!(rt; reader.fetch(&mut source), Ok(Fetched::End));
    Ok(())
}

#[test]
fn a_line_past_the_limit_is_told_and_let_go(rt: HostRuntime) -> Result<(), Fail> {
    let mut text = Vec::new(rt.alloc());
    for count in [1_001, 1_000, 2_000, 999] {
        for _ in 0..count {
            text.push(b'x')?;
        }
        text.extend_from_slice(b"\r\n")?;
    }
    let mut source = MemorySource::new(&text);
    let mut reader = LineReader::new(rt.alloc(), 1_000)?;
    for line in [
        Next::TooLong,
        Next::Line(&[b'x'; 1_000]),
        Next::TooLong,
        Next::Line(&[b'x'; 999]),
    ] {
        assert_eq!(rt; reader.fetch(&mut source), Ok(Fetched::Waits));
        assert_eq!(rt; reader.line(), line);
        reader.consume();
    }
    assert_eq!(rt; reader.fetch(&mut source), Ok(Fetched::End));
    Ok(())
}

#[test]
fn a_line_without_end_is_not_read_on(rt: HostRuntime) -> Result<(), Fail> {
    for (piece, reads) in [(1, 1_001), (1_000, 2), (1_001, 1), (usize::MAX, 1)] {
        let mut source = Endless { piece, reads: 0 };
        let mut reader = LineReader::new(rt.alloc(), 1_000)?;
        assert_eq!(rt; reader.fetch(&mut source), Ok(Fetched::Overlong));
        assert_eq!(rt; source.reads, reads, "in pieces of {piece}");
        assert_eq!(rt; reader.line(), Next::More);
        assert_eq!(rt; reader.fetch(&mut source), Ok(Fetched::Overlong));
        assert_eq!(rt; source.reads, reads.saturating_add(1));
    }
    Ok(())
}

/// What fetches of a text give, at the limit 3 and in pieces of four bytes: `+` for a line that is
/// past the limit, each line that waits with `|` behind it, and `.` at the end.
fn outcomes(alloc: Global, text: &[u8]) -> Result<Vec<u8>, Fail> {
    let mut source = MemorySource::new(text).in_pieces(4);
    let mut reader = LineReader::new(alloc, 3)?;
    let mut out = Vec::new(alloc);
    for _turn in 0..8 {
        match reader.fetch(&mut source)? {
            Fetched::Overlong => out.push(b'+')?,
            Fetched::End => {
                out.push(b'.')?;
                return Ok(out);
            }
            Fetched::Waits => {
                if let Next::Line(line) = reader.line() {
                    out.extend_from_slice(line)?;
                } else {
                    out.extend_from_slice(b"long")?;
                }
                out.push(b'|')?;
            }
        }
        reader.consume();
    }
    Ok(out)
}

#[test]
fn a_line_past_the_limit_can_be_read_on(rt: HostRuntime) -> Result<(), Fail> {
    let rows = [
        (b"abcdef\r\nxy".as_slice(), b"+long|xy|.".as_slice()),
        (b"abcdefghij\nxy", b"++long|xy|."),
        (b"abcdef", b"++long|."),
        (b"abcd", b"+long|."),
        (b"abc\r", b"long|."),
        (b"abc\r\n", b"abc|."),
    ];
    for (text, want) in rows {
        assert_eq!(rt; outcomes(rt.alloc(), text)?.as_slice(), want);
    }
    Ok(())
}
