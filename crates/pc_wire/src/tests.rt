//! Tests of what no clause says.

use crate::{LineFeed, Next, next_word, without_spaces};
use std::test::Fail;

/// Feeds a piece and shows what comes: each line with a `|` behind it.
fn show_piece(feed: &mut LineFeed, piece: &[u8], out: &mut Vec<u8>) -> Result<(), Fail> {
    let mut left = piece;
    for _ in 0..piece.len() {
        let count = feed.feed(left);
        left = &left[count..];
        if show(feed.next(), b'|', out)? {
            feed.consume();
        }
    }
    Ok(())
}

/// Shows what a feed shows, with a mark behind it, and says whether there was a line.
fn show(next: Next<'_>, mark: u8, out: &mut Vec<u8>) -> Result<bool, Fail> {
    match next {
        Next::Line(line) => out.extend_from_slice(line)?,
        Next::TooLong => out.extend_from_slice(b"long")?,
        Next::More => return Ok(false),
    }
    out.push(mark)?;
    Ok(true)
}

#[test]
fn cut_anywhere(rt: HostRuntime) -> Result<(), Fail> {
    let text = b"ab\r\n\r\r\nx\ty\n\nabcdef\nlas\r".as_slice();
    let want = b"ab|\r|x\ty||long|las\r.".as_slice();
    for cut in 0..text.len() {
        let mut out = Vec::new(rt.alloc());
        let mut feed = LineFeed::new(4);
        show_piece(&mut feed, &text[..cut], &mut out)?;
        show_piece(&mut feed, &text[cut..], &mut out)?;
        show(feed.last(), b'.', &mut out)?;
        assert_eq!(rt; out.as_slice(), want, "cut at {cut}");
    }
    let mut out = Vec::new(rt.alloc());
    let mut feed = LineFeed::new(4);
    for at in 0..text.len() {
        show_piece(&mut feed, &text[at..at + 1], &mut out)?;
    }
    show(feed.last(), b'.', &mut out)?;
    assert_eq!(rt; out.as_slice(), want, "byte by byte");
    Ok(())
}

#[test]
fn limits_at_the_edge(rt: HostRuntime) {
    let rows = [
        (b"abc\n".as_slice(), false),
        (b"abc\r\n", false),
        (b"abcd\n", true),
        (b"abc\r\r\n", true),
        (b"abc\rx\n", true),
        (b"abcdefgh\r\n", true),
        (b"\n", false),
    ];
    for (text, too_long) in rows {
        let mut feed = LineFeed::new(3);
        assert_eq!(rt; feed.feed(text), text.len());
        assert_eq!(rt; feed.next() == Next::TooLong, too_long);
        assert!(rt; !feed.over());
        assert_eq!(rt; feed.feed(text), 0);
    }
}

#[test]
fn tells_early_that_a_line_is_over(rt: HostRuntime) {
    let rows = [
        (b"".as_slice(), false, false),
        (b"abc", false, false),
        (b"abc\r", false, true),
        (b"abcd", true, true),
        (b"abc\r\r", true, true),
        (b"abc\rx", true, true),
    ];
    for (text, over, too_long) in rows {
        let mut feed = LineFeed::new(3);
        feed.feed(text);
        assert_eq!(rt; feed.over(), over);
        assert!(rt; feed.next() == Next::More);
        assert_eq!(rt; feed.last() == Next::TooLong, too_long);
        assert_eq!(rt; feed.last() == Next::More, text.is_empty());
    }
}

#[test]
fn a_thousand_bytes(rt: HostRuntime) {
    let bytes = [b'x'; 1001];
    let mut feed = LineFeed::new(1000);
    feed.feed(&bytes[..1000]);
    feed.feed(b"\r\n");
    let Next::Line(line) = feed.next() else {
        panic!(rt; "a line");
    };
    assert_eq!(rt; line, &bytes[..1000]);
    feed.consume();
    feed.feed(&bytes);
    feed.feed(b"\n");
    assert!(rt; feed.next() == Next::TooLong);
}

#[test]
fn words(rt: HostRuntime) {
    let mut left = b"  ab \tc  d ".as_slice();
    for want in [b"ab".as_slice(), b"\tc", b"d"] {
        let Some((word, rest)) = next_word(left) else {
            panic!(rt; "a word");
        };
        assert_eq!(rt; word, want);
        left = rest;
    }
    assert_eq!(rt; left, b" ".as_slice());
    assert!(rt; next_word(left).is_none());
    assert_eq!(rt; without_spaces(b"  \ta "), b"\ta ".as_slice());
}
