//! What a client is told of a message.

ghost use Rattle.std.specs.Prelude.{◌≡◌, ◌≤◌, ◌==◌, false, take, length, OnOk, IfOk, MatchOption, []};
ghost use Rattle.pc_message.specs.Descriptor.{descriptor_of, first_kept};
ghost use Rattle.pc_message.specs.Header.{field_text, has_name as named};

use crate::header::{Field, has_name, next_field, trimmed, unfolded};
use crate::message::Message;
use pc_base::{Line, Memory};
use std::alloc::Global;

/// A message in a few numbers and texts. Each text has at most 128 bytes and is empty where the
/// header has no such field.
#[derive(Drop)]
pub struct Descriptor {
    pub uid: u32,
    /// Flag 0 is the lowest bit.
    pub flags: u16,
    /// The size of the message.
    pub bytes: u32,
    /// How many lines it has.
    pub lines: u32,
    pub date: Line,
    pub from: Line,
    pub to: Line,
    pub subject: Line,
}

/// What a client is told of a uid.
#[derive(Drop)]
pub enum Change {
    /// The message is there.
    Present(Descriptor),
    /// The message with this uid is gone.
    Expunged(u32),
}

/// The descriptor of a message with this uid and these flags.
pub fn describe(
    alloc: Global,
    message: &Message,
    uid: u32,
    flags: u16,
) -> Result<Descriptor, Memory>
    ensures { IfOk result (λ descriptor. descriptor ≡ descriptor_of message.now uid flags) }
{
    let lines = message.lines().as_slice();
    let mut date = None;
    let mut from = None;
    let mut to = None;
    let mut subject = None;
    let mut rest = lines;
    while let Some(field) = next_field(rest) {
        set_first(alloc, &mut date, b"date:", &field)?;
        set_first(alloc, &mut from, b"from:", &field)?;
        set_first(alloc, &mut to, b"to:", &field)?;
        set_first(alloc, &mut subject, b"subject:", &field)?;
        rest = field.rest;
    }
    Ok(Descriptor {
        uid,
        flags,
        bytes: message.size(),
        lines: lines.len() as u32,
        date: or_empty(alloc, date)?,
        from: or_empty(alloc, from)?,
        to: or_empty(alloc, to)?,
        subject: or_empty(alloc, subject)?,
    })
}

/// Keeps the field's text where the field has this name and none was kept before.
fn set_first(
    alloc: Global,
    text: &mut Option<Line>,
    name: &[u8],
    field: &Field,
) -> Result<(), Memory>
    ensures { let whole = field_text field.now.line.now field.now.folded.now in
        let has = named name.now field.now.line.now in
        OnOk result (text.new ≡ first_kept text.old has (take 128 whole)) }
{
    if text.is_some() {
        return Ok(());
    }
    if !has_name(name, field.line.bytes()) {
        return Ok(());
    }
    *text = Some(cut_text(alloc, field)?);
    Ok(())
}

/// The field's text, cut at 128 bytes.
fn cut_text(alloc: Global, field: &Field) -> Result<Line, Memory>
    ensures { let whole = field_text field.now.line.now field.now.folded.now in
        IfOk result (λ line. line ≡ take 128 whole) }
{
    let whole = unfolded(alloc, field)?;
    let text = trimmed(&whole);
    Line::of(alloc, &text[..128usize.min(text.len())])
}

fn or_empty(alloc: Global, text: Option<Line>) -> Result<Line, Memory>
    ensures { IfOk result (λ line. MatchOption text (line ≡ []) (λ first. line ≡ first)) }
{
    match text {
        Some(line) => Ok(line),
        None => Line::of(alloc, &[]),
    }
}
