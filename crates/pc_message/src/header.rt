//! The fields of a message's header.

ghost use Rattle.std.specs.Prelude.{◌≡◌, ◌≤◌, ◌++◌, ◌==◌, false, length, ◌<◌, MatchOption, IfSome, IfOk};
ghost use Rattle.std.specs.List.{concat, prefix_len, position, position_or_len, after_first};
ghost use Rattle.pc_base.specs.Line.{has_feed};
ghost use Rattle.pc_message.specs.Header.{IsField, IsHeaderEnd, is_blank as blank, is_folded as folded, has_name as named, trimmed as text_trimmed, trimmed_front as front_trimmed, trimmed_back as back_trimmed};

use pc_base::{Line, Memory};
use std::alloc::Global;

/// A line of a header that isn't empty, the lines that are folded under it, and those that follow.
#[derive(Clone, Copy)]
pub struct Field<'a> {
    pub line: &'a Line,
    pub folded: &'a [Line],
    pub rest: &'a [Line],
}

/// The first line of a header with what is folded under it; none at the header's end.
pub fn next_field(lines: &[Line]) -> Option<Field<'_>>
    ensures { MatchOption result
        (IsHeaderEnd lines.now)
        (λ field. IsField lines.now field.line.now field.folded.now field.rest.now) }
{
    let [line, after @ ..] = lines else {
        return None;
    };
    if line.bytes().is_empty() {
        return None;
    }
    let count = folded_count(after);
    Some(Field {
        line,
        folded: &after[..count],
        rest: &after[count..],
    })
}

/// How many lines stand before the first empty one, or all.
pub fn header_count(lines: &[Line]) -> usize
    ensures count { result ≡ position_or_len (λ line. length line == 0) lines.now }
    ensures bound { result ≤ length lines.now }
{
    for (count, line) in lines.iter().enumerate() {
        if line.bytes().is_empty() {
            return count;
        }
    }
    lines.len()
}

/// How many lines from the front on begin with a blank.
fn folded_count(lines: &[Line]) -> usize
    ensures count { result ≡ prefix_len folded lines.now }
    ensures bound { result ≤ length lines.now }
{
    for (count, line) in lines.iter().enumerate() {
        if !is_folded(line.bytes()) {
            return count;
        }
    }
    lines.len()
}

fn is_folded(line: &[u8]) -> bool
    ensures { result ≡ folded line.now }
{
    match line {
        [] => false,
        [first, ..] => is_blank(*first),
    }
}

fn is_blank(byte: u8) -> bool
    ensures { result ≡ blank byte }
{
    byte == b' ' || byte == b'\t'
}

/// Whether the line begins with this name, colon included, whatever the case of its letters.
pub fn has_name(name: &[u8], line: &[u8]) -> bool
    ensures { result ≡ named name.now line.now }
{
    if line.len() < name.len() {
        return false;
    }
    line[..name.len()].eq_ignore_ascii_case(name)
}

/// What follows the colon of a field, with its folded lines.
pub fn unfolded(alloc: Global, field: &Field) -> Result<Vec<u8>, Memory>
    ensures text { IfOk result (λ text. text.items
        ≡ after_first (λ byte. byte == 58) field.now.line.now ++ concat field.now.folded.now) }
    ensures whole { IfOk result (λ text. has_feed text.items ≡ false) }
{
    let mut text = Vec::from_slice(alloc, after_colon(field.line.bytes()))?;
    for line in field.folded {
        text.extend_from_slice(line.bytes())?;
    }
    Ok(text)
}

fn after_colon(line: &[u8]) -> &[u8]
    ensures { result.now ≡ after_first (λ byte. byte == 58) line.now }
{
    match place_of(b':', line) {
        Some(colon) => &line[colon + 1..],
        None => &[],
    }
}

/// The first place of a byte.
pub fn place_of(wanted: u8, bytes: &[u8]) -> Option<usize>
    ensures place { result ≡ position (λ byte. byte == wanted) bytes.now }
    ensures bound { IfSome result (λ place. place < length bytes.now) }
{
    bytes.iter().position(|byte| *byte == wanted)
}

/// The bytes without the spaces and tabs at both ends.
pub fn trimmed(bytes: &[u8]) -> &[u8]
    ensures { result.now ≡ text_trimmed bytes.now }
{
    trimmed_back(trimmed_front(bytes))
}

fn trimmed_front(bytes: &[u8]) -> &[u8]
    ensures { result.now ≡ front_trimmed bytes.now }
{
    for (count, byte) in bytes.iter().enumerate() {
        if !is_blank(*byte) {
            return &bytes[count..];
        }
    }
    &[]
}

fn trimmed_back(bytes: &[u8]) -> &[u8]
    ensures { result.now ≡ back_trimmed bytes.now }
{
    let mut count = bytes.len();
    while count > 0 && is_blank(bytes[count - 1]) {
        count -= 1;
    }
    &bytes[..count]
}
