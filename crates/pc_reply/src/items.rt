//! The lines of lists.

ghost use Rattle.std.specs.Prelude.{◌≡◌, ◌≤◌, [], ◌∷◌, ◌++◌, false, length, IfOk, OnOk, OnErr};
ghost use Rattle.pc_base.specs.Line.{has_feed};
ghost use Rattle.pc_reply.specs.Items.{AddsFront, change_lines, descriptor_lines, client_text, counted_text, mode_word};

use crate::first_line::{counts_text, gone_text};
use crate::text::Text;
use pc_base::{Line, LineFault, Lines, Memory, Name};
use pc_message::{Change, Descriptor};
use std::alloc::Global;

/// How a client is used.
#[derive(Clone, Copy, Debug, PartialEq, Eq)]
pub enum Mode {
    /// No session is live.
    Away,
    /// By a user at a terminal.
    Interactive,
    /// By a program that brings a cache up to date.
    Batch,
}

/// Why lines are no list.
#[derive(Clone, Copy, Debug, PartialEq, Eq)]
pub enum ItemFault {
    /// The first line, counted from 0, with which no list goes on; the number of lines where the list
    /// ends inside a message.
    Bad { line: usize },
    /// Want of memory.
    Memory,
}

impl Mode {
    /// The word that names it.
    pub fn word(self) -> &'static [u8]
        ensures value { result.now ≡ mode_word self }
        ensures short { length result.now ≤ 11 }
        ensures line { has_feed result.now ≡ false }
    {
        match self {
            Mode::Away => b"away",
            Mode::Interactive => b"interactive",
            Mode::Batch => b"batch",
        }
    }
}

/// Adds the lines of a change: five of a message that is there, one of a message that is gone. After
/// `Err` the first of them may have been added, and the old ones are as they were.
pub fn push_change(alloc: Global, lines: &mut Lines, change: &Change) -> Result<(), Memory>
    ensures ok { OnOk result (lines.new ≡ lines.old ++ change_lines change.now) }
    ensures err { OnErr result (AddsFront lines.old lines.new (change_lines change.now)) }
{
    match change {
        Change::Present(descriptor) => push_descriptor(alloc, lines, descriptor),
        Change::Expunged(uid) => push_text(alloc, lines, &gone_text(*uid)),
    }
}

/// Adds the five lines of a descriptor. After `Err` the first of them may have been added, and the old
/// ones are as they were.
pub fn push_descriptor(
    alloc: Global,
    lines: &mut Lines,
    descriptor: &Descriptor,
) -> Result<(), Memory>
    ensures ok { OnOk result (lines.new ≡ lines.old ++ descriptor_lines descriptor.now) }
    ensures err { OnErr result (AddsFront lines.old lines.new (descriptor_lines descriptor.now)) }
{
    let first = counts_text(
        descriptor.uid,
        descriptor.flags,
        descriptor.bytes,
        descriptor.lines,
    );
    push_text(alloc, lines, &first)?;
    push_copy(alloc, lines, &descriptor.date)?;
    push_copy(alloc, lines, &descriptor.from)?;
    push_copy(alloc, lines, &descriptor.to)?;
    push_copy(alloc, lines, &descriptor.subject)
}

/// Adds a text as a line. After `Err` nothing has changed.
fn push_text(alloc: Global, lines: &mut Lines, text: &Text) -> Result<(), Memory>
    ensures ok { OnOk result (lines.new ≡ lines.old ++ text.now ∷ []) }
    ensures err { OnErr result (lines.new ≡ lines.old) }
{
    lines.push(text.line(alloc)?)
}

/// Adds a copy of a line. After `Err` nothing has changed.
fn push_copy(alloc: Global, lines: &mut Lines, line: &Line) -> Result<(), Memory>
    ensures ok { OnOk result (lines.new ≡ lines.old ++ line.now ∷ []) }
    ensures err { OnErr result (lines.new ≡ lines.old) }
{
    lines.push(copy(alloc, line)?)
}

/// The line of a client: its name, its birth and how it is used.
pub fn client_line(alloc: Global, name: &Name, birth: u64, mode: Mode) -> Result<Line, Memory>
    ensures { IfOk result (λ line. line ≡ client_text name.now birth mode) }
{
    Text::of(b"")
        .with_name(name)
        .with(b" ")
        .with_number(birth)
        .with(b" ")
        .with(mode.word())
        .line(alloc)
}

/// The line of a mailbox (its name, how many messages are live, the highest uid) or of a subscription
/// (its board, the mark, the board's highest uid).
pub fn counted_line(alloc: Global, name: &Name, first: u32, second: u32) -> Result<Line, Memory>
    ensures { IfOk result (λ line. line ≡ counted_text name.now first second) }
{
    counted(name, first, second).line(alloc)
}

/// The line of an address, a board or anything else that has just a name.
pub fn name_line(alloc: Global, name: &Name) -> Result<Line, Memory>
    ensures { IfOk result (λ line. line ≡ name.now) }
{
    Text::of(b"").with_name(name).line(alloc)
}

/// A name and two numbers.
pub(crate) fn counted(name: &Name, first: u32, second: u32) -> Text
    ensures { result ≡ counted_text name.now first second }
{
    Text::of(b"")
        .with_name(name)
        .with(b" ")
        .with_number(u64::from(first))
        .with(b" ")
        .with_number(u64::from(second))
}

/// Another line of the same bytes.
pub(crate) fn copy(alloc: Global, line: &Line) -> Result<Line, Memory>
    ensures { IfOk result (λ copy. copy ≡ line.now) }
{
    match Line::copy_of(alloc, line.bytes()) {
        Ok(line) => Ok(line),
        Err(LineFault::Memory) => Err(Memory),
        Err(_) => unreachable!(),
    }
}
