//! Tests of what no clause says.

use crate::{BodyFeed, BodyStep, LineFeed, Next, write_body};
use pc_base::{Failed, Line, Lines, Memory, MemorySink};
use std::alloc::Global;
use std::test::Fail;

/// Lines of content, and how they are sent.
const SHOWN: &[u8] = b"To: ann||.|..||.x|";

const SENT: &[u8] = b"To: ann\r\n\r\n..\r\n...\r\n\r\n..x\r\n.\r\n";

/// Feeds a piece and shows what comes of the bodies in it.
fn show_piece(
    feed: &mut LineFeed,
    body: &mut BodyFeed,
    piece: &[u8],
    out: &mut Vec<u8>,
) -> Result<(), Fail> {
    let mut left = piece;
    for _ in 0..piece.len() {
        let count = feed.feed(left);
        left = &left[count..];
        match feed.next() {
            Next::More => {}
            next => {
                show(&body.line(next), out)?;
                feed.consume();
            }
        }
    }
    Ok(())
}

/// Shows an answer: the lines of a body with a `|` behind each, or a word.
fn show(answer: &Result<BodyStep, Memory>, out: &mut Vec<u8>) -> Result<(), Fail> {
    match answer {
        Ok(BodyStep::More) => {}
        Ok(BodyStep::Whole(lines)) => {
            for line in lines.as_slice() {
                out.extend_from_slice(line.bytes())?;
                out.push(b'|')?;
            }
            out.push(b'!')?;
        }
        Ok(BodyStep::LineTooLong) => out.extend_from_slice(b"long!")?,
        Ok(BodyStep::TooLarge) => out.extend_from_slice(b"large!")?,
        Err(_) => out.extend_from_slice(b"memory!")?,
    }
    Ok(())
}

/// What comes of a text at these limits.
fn shown(alloc: Global, bytes: u32, lines: u32, text: &[u8]) -> Result<Vec<u8>, Fail> {
    let mut out = Vec::new(alloc);
    let mut feed = LineFeed::new(1000);
    let mut body = BodyFeed::new(alloc, bytes, lines);
    show_piece(&mut feed, &mut body, text, &mut out)?;
    Ok(out)
}

/// The lines that end in `|`.
fn lines_of(alloc: Global, shown: &[u8]) -> Result<Lines, Fail> {
    let mut lines = Lines::new(alloc);
    let mut start = 0;
    for (at, byte) in shown.iter().enumerate() {
        if *byte == b'|' && start <= at {
            lines.push(Line::copy_of(alloc, &shown[start..at])?)?;
            start = at + 1;
        }
    }
    Ok(lines)
}

#[test]
fn cut_anywhere(rt: HostRuntime) -> Result<(), Fail> {
    let text = b"To: ann\n\r\n..\r\n...\n\r\n..x\r\n.\r\nx\n.y\n.\n.\r\n";
    let want = b"To: ann||.|..||.x|!x|y|!!".as_slice();
    for cut in 0..text.len() {
        let mut out = Vec::new(rt.alloc());
        let mut feed = LineFeed::new(1000);
        let mut body = BodyFeed::new(rt.alloc(), 65536, 32768);
        show_piece(&mut feed, &mut body, &text[..cut], &mut out)?;
        show_piece(&mut feed, &mut body, &text[cut..], &mut out)?;
        assert_eq!(rt; out.as_slice(), want, "cut at {cut}");
    }
    Ok(())
}

#[test]
fn numbers_at_the_edge(rt: HostRuntime) -> Result<(), Fail> {
    let rows = [
        (24, 6, b"To: ann||.|..||.x|!".as_slice()),
        (23, 6, b"large!"),
        (24, 5, b"large!"),
        (0, 0, b"large!"),
    ];
    for (bytes, lines, want) in rows {
        let out = shown(rt.alloc(), bytes, lines, SENT)?;
        assert_eq!(rt; out.as_slice(), want, "{bytes} {lines}");
    }
    let out = shown(rt.alloc(), 0, 0, b".\r\n")?;
    assert_eq!(rt; out.as_slice(), b"!".as_slice());
    Ok(())
}

#[test]
fn the_added_dot_counts_for_the_line(rt: HostRuntime) -> Result<(), Fail> {
    let rows = [(999, b"whole".as_slice()), (1000, b"long!")];
    for (more, want) in rows {
        let mut text = b"..".to_vec(rt.alloc())?;
        for _ in 1..more {
            text.push(b'x')?;
        }
        text.extend_from_slice(b"\r\n.\r\n")?;
        let out = shown(rt.alloc(), 65536, 32768, text.as_slice())?;
        if want == b"whole".as_slice() {
            assert_eq!(rt; out.len(), 1001);
        } else {
            assert_eq!(rt; out.as_slice(), want);
        }
    }
    Ok(())
}

#[test]
fn a_line_past_its_limit_comes_first(rt: HostRuntime) -> Result<(), Fail> {
    let mut out = Vec::new(rt.alloc());
    let mut feed = LineFeed::new(3);
    let mut body = BodyFeed::new(rt.alloc(), 5, 9);
    let text = b"abcd\nab\nabc\n.\nabc\nab\n.\nabc\nab\nabcd\n.\nabc\n.\n";
    show_piece(&mut feed, &mut body, text, &mut out)?;
    assert_eq!(rt; out.as_slice(), b"long!large!long!abc|!".as_slice());
    Ok(())
}

#[test]
fn what_no_line_holds_is_past_its_limit(rt: HostRuntime) -> Result<(), Fail> {
    let bytes = [b'x'; 1001];
    for line in [b"a\nb".as_slice(), bytes.as_slice()] {
        let mut out = Vec::new(rt.alloc());
        let mut body = BodyFeed::new(rt.alloc(), 65536, 32768);
        show(&body.line(Next::Line(line)), &mut out)?;
        show(&body.line(Next::Line(b".")), &mut out)?;
        assert_eq!(rt; out.as_slice(), b"long!".as_slice());
    }
    Ok(())
}

/// Behind the dot a new body begins. A line that wants memory, as under `rt try --test --fail-alloc`,
/// lets only want of memory come at the dot.
#[test]
fn a_body_ends_at_its_dot(rt: HostRuntime) -> Result<(), Fail> {
    let mut body = BodyFeed::new(rt.alloc(), 65536, 32768);
    let mut wanted = false;
    for line in [b"a".as_slice(), b"b", b"c", b"d", b"e"] {
        match body.line(Next::Line(line)) {
            Ok(BodyStep::More) => {}
            Err(Memory) => {
                assert!(rt; !wanted);
                wanted = true;
            }
            _ => panic!(rt; "before the dot"),
        }
    }
    match body.line(Next::Line(b".")) {
        Ok(BodyStep::Whole(lines)) => {
            assert!(rt; !wanted);
            assert_eq!(rt; lines.as_slice().len(), 5);
        }
        Err(Memory) => assert!(rt; wanted),
        _ => panic!(rt; "at the dot"),
    }
    match body.line(Next::Line(b".")) {
        Ok(BodyStep::Whole(lines)) => assert_eq!(rt; lines.as_slice().len(), 0),
        _ => panic!(rt; "a new body"),
    }
    Ok(())
}

#[test]
fn a_body_is_written(rt: HostRuntime) -> Result<(), Fail> {
    let lines = lines_of(rt.alloc(), SHOWN)?;
    let mut sink = MemorySink::new(rt.alloc()).in_pieces(3);
    write_body(&mut sink, &lines)?;
    assert_eq!(rt; sink.bytes(), SENT);
    let out = shown(rt.alloc(), 65536, 32768, sink.bytes())?;
    assert_eq!(rt; out.as_slice(), b"To: ann||.|..||.x|!".as_slice());
    Ok(())
}

#[test]
fn a_front_is_written(rt: HostRuntime) -> Result<(), Fail> {
    let lines = lines_of(rt.alloc(), SHOWN)?;
    for call in 1..20 {
        let mut sink = MemorySink::new(rt.alloc()).failing_at(call);
        let written = write_body(&mut sink, &lines);
        assert!(rt; SENT.starts_with(sink.bytes()));
        assert_eq!(rt; written == Err(Failed), sink.bytes() != SENT);
    }
    Ok(())
}
