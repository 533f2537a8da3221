//! The first line of a change: written, and read just as it is written.

ghost use Rattle.std.specs.Prelude.{◌≡◌, ℕ, IfSome};
ghost use Rattle.pc_reply.specs.Items.{counts_text as text_of_counts, gone_text as text_of_gone};
ghost use Rattle.pc_reply.specs.FirstLine.{IsFirst, first_uid};
ghost use Rattle.pc_reply.specs.declared.first_line.FirstLine.{FirstLine};

use crate::flags::flags_text;
use crate::parts::{first_flags, first_number};
use crate::text::Text;

/// What the first line of a change says.
#[derive(Clone, Copy, Debug, PartialEq, Eq)]
pub enum FirstLine {
    /// The message with this uid is gone.
    Gone(u32),
    /// The message is there, and four texts follow.
    Counts {
        uid: u32,
        flags: u16,
        bytes: u32,
        lines: u32,
    },
}

impl FirstLine {
    /// The first line that the bytes are.
    pub fn read(line: &[u8]) -> Option<FirstLine>
        ensures first { IfSome result (λ first. IsFirst first line.now) }
        ensures every { (first : FirstLine) → IsFirst first line.now → result ≡ Some first }
    {
        match read_gone(line) {
            Some(uid) => Some(FirstLine::Gone(uid)),
            None => read_counts(line),
        }
    }

    /// The uid that it names.
    pub fn uid(self) -> u32
        ensures { result ≡ first_uid self }
    {
        match self {
            FirstLine::Gone(uid) => uid,
            FirstLine::Counts { uid, .. } => uid,
        }
    }
}

/// The uid of a message that is gone, where the line tells so.
fn read_gone(line: &[u8]) -> Option<u32>
    ensures some { IfSome result (λ uid. IsFirst (FirstLine.Gone uid) line.now) }
    ensures every { (uid : ℕ) → IsFirst (FirstLine.Gone uid) line.now → result ≡ Some uid }
{
    let Some((uid, _)) = first_number(line) else {
        return None;
    };
    if !gone_text(uid).is_line(line) {
        return None;
    }
    Some(uid)
}

/// The counts of a message that is there, where the line tells them.
fn read_counts(line: &[u8]) -> Option<FirstLine>
    ensures some { IfSome result (λ first. IsFirst first line.now) }
    ensures every { (uid flags bytes lines : ℕ) → let first = FirstLine.Counts uid flags bytes lines in
        IsFirst first line.now → result ≡ Some first }
{
    let Some((uid, rest)) = first_number(line) else {
        return None;
    };
    let Some((flags, rest)) = first_flags(rest) else {
        return None;
    };
    let Some((bytes, rest)) = first_number(rest) else {
        return None;
    };
    let Some((lines, _)) = first_number(rest) else {
        return None;
    };
    if !counts_text(uid, flags, bytes, lines).is_line(line) {
        return None;
    }
    Some(FirstLine::Counts {
        uid,
        flags,
        bytes,
        lines,
    })
}

/// The line of a message that is gone.
pub fn gone_text(uid: u32) -> Text
    ensures { result ≡ text_of_gone uid }
{
    Text::of(b"").with_number(u64::from(uid)).with(b" EXPUNGED")
}

/// The first line of a message that is there.
pub fn counts_text(uid: u32, flags: u16, bytes: u32, lines: u32) -> Text
    ensures { result ≡ text_of_counts uid flags bytes lines }
{
    Text::of(b"")
        .with_number(u64::from(uid))
        .with(b" ")
        .with(flags_text(flags).bytes())
        .with(b" ")
        .with_number(u64::from(bytes))
        .with(b" ")
        .with_number(u64::from(lines))
}
