//! Where events print.

ghost use Rattle.std.specs.Prelude.{⊤, ◌≡◌, ℕ, List, [], ◌∷◌, ◌++◌, map, codes, decimal, length, take, OnOk, OnErr};
ghost use Rattle.std.proofs.Common.{sym, append-nil};
ghost use Rattle.std.proofs.Math.Seq.{take-length};
ghost use Rattle.pc_world.specs.Replay.{Adds};
ghost use Rattle.pc_world.specs.Rows.{lines_of, mailbox_line};
ghost use Rattle.pc_world.specs.Runs.{ended, text_of};
ghost use Rattle.pc_world.specs.Steps.{indented, shown, printed_user};

use itoa::Buffer;
use pc_account::MailboxRow;
use pc_base::{Bytes, Memory, Name, Printed};
use std::alloc::Global;

/// What takes the lines that events print.
pub(crate) trait Transcript {
    /// These lines were put behind what was there.
    ghost adds: { Self → List (List ℕ) → Self → Type 0 };

    /// What was there is in front.
    ghost keeps: { Self → Self → Type 0 };

    /// Prints whether a user is enrolled, by this head.
    fn print_user(&mut self, alloc: Global, name: &Name, head: &[u8]) -> Result<(), Memory>
        ensures ok { OnOk result (adds self.old (printed_user name.now head.now) self.new) }
        ensures err { OnErr result (keeps self.old self.new) };

    /// Prints a reply behind the heading of its user: its head, and a line for each mailbox of its list.
    fn print_reply(
        &mut self,
        alloc: Global,
        heading: &[u8],
        head: &[u8],
        rows: &[MailboxRow],
    ) -> Result<(), Memory>
        ensures ok { OnOk result (adds self.old (shown heading.now head.now (lines_of rows.now)) self.new) }
        ensures err { OnErr result (keeps self.old self.new) };

    /// No lines may be put behind it, and then it is as before.
    ghost nothing: { (transcript : Self) → adds transcript [] transcript };

    /// As it is, what is there is in front.
    ghost unchanged: { (transcript : Self) → keeps transcript transcript };
}

impl Transcript for Printed {
    ghost adds = { λ old lines new. new ≡ old ++ lines };

    ghost keeps = { λ _ _. ⊤ };

    ghost nothing = { λ lines. sym (append-nil lines) };

    ghost unchanged = { λ _. tt };

    fn print_user(&mut self, alloc: Global, name: &Name, head: &[u8]) -> Result<(), Memory> {
        let mut line = Vec::new(alloc);
        append_user(&mut line, name, head)?;
        push_line(self, alloc, &line)
    }

    fn print_reply(
        &mut self,
        alloc: Global,
        heading: &[u8],
        head: &[u8],
        rows: &[MailboxRow],
    ) -> Result<(), Memory> {
        let mut line = Vec::new(alloc);
        append_head(&mut line, heading, head)?;
        push_line(self, alloc, &line)?;
        for row in rows {
            line.clear();
            append_row(&mut line, row)?;
            push_line(self, alloc, &line)?;
        }
        Ok(())
    }
}

/// Puts a copy of a line behind the lines.
fn push_line(lines: &mut Printed, alloc: Global, line: &[u8]) -> Result<(), Memory>
    ensures { OnOk result (lines.new ≡ lines.old ++ line.now ∷ []) }
{
    lines.push(Bytes::copy_of(alloc, line)?)
}

/// A text, in which LF ends each line.
impl Transcript for Vec<u8> {
    ghost adds = { λ old lines new. new.items ≡ old.items ++ text_of lines };

    ghost keeps = { λ old new. take (length old.items) new.items ≡ old.items };

    ghost nothing = { λ text. sym (append-nil text.items) };

    ghost unchanged = { λ text. take-length text.items };

    fn print_user(&mut self, _alloc: Global, name: &Name, head: &[u8]) -> Result<(), Memory> {
        append_user(self, name, head)?;
        self.push(b'\n')?;
        Ok(())
    }

    fn print_reply(
        &mut self,
        _alloc: Global,
        heading: &[u8],
        head: &[u8],
        rows: &[MailboxRow],
    ) -> Result<(), Memory> {
        append_head(self, heading, head)?;
        self.push(b'\n')?;
        print_rows(self, rows)
    }
}

/// The lines of a list of mailboxes behind a text.
fn print_rows(text: &mut Vec<u8>, rows: &[MailboxRow]) -> Result<(), Memory>
    ensures { Adds text.old.items text.new.items (text_of (map indented (lines_of rows.now))) result }
{
    for row in rows {
        let Ok(()) = print_row(text, row) else {
            return Err(Memory);
        };
    }
    Ok(())
}

/// A line of the list behind a text.
fn print_row(text: &mut Vec<u8>, row: &MailboxRow) -> Result<(), Memory>
    ensures { Adds text.old.items text.new.items (ended (indented (mailbox_line row.now))) result }
{
    append_row(text, row)?;
    text.push(b'\n')?;
    Ok(())
}

/// Puts the line of a user behind the text, with the head that tells whether it was enrolled.
fn append_user(text: &mut Vec<u8>, name: &Name, head: &[u8]) -> Result<(), Memory>
    ensures { Adds text.old.items text.new.items (codes "user " ++ name.now ++ codes ": " ++ head.now) result }
{
    text.extend_from_slice(b"user ")?;
    text.extend_from_slice(name.bytes())?;
    text.extend_from_slice(b": ")?;
    text.extend_from_slice(head)?;
    Ok(())
}

/// Puts the first line of a reply behind the text.
fn append_head(text: &mut Vec<u8>, heading: &[u8], head: &[u8]) -> Result<(), Memory>
    ensures { Adds text.old.items text.new.items (heading.now ++ head.now) result }
{
    text.extend_from_slice(heading)?;
    text.extend_from_slice(head)?;
    Ok(())
}

/// Puts a line of a list of mailboxes behind the text, with two spaces in front.
fn append_row(text: &mut Vec<u8>, row: &MailboxRow) -> Result<(), Memory>
    ensures { Adds text.old.items text.new.items (indented (mailbox_line row.now)) result }
{
    text.extend_from_slice(b"  ")?;
    text.extend_from_slice(row.name.bytes())?;
    append_numbers(text, row.live, row.highest)?;
    Ok(())
}

/// Puts two numbers behind the text, each behind a space. Most numbers in a list have one digit.
#[inline]
#[tactic(auto, using(std::proofs::lemmas::Fmt::decimal_digit))]
fn append_numbers(text: &mut Vec<u8>, first: u32, second: u32) -> Result<(), Memory>
    ensures { Adds text.old.items text.new.items (codes " " ++ decimal first ++ codes " " ++ decimal second) result }
{
    if first < 10 {
        if second < 10 {
            let digits = [b' ', b'0' + first as u8, b' ', b'0' + second as u8];
            text.extend_from_slice(&digits)?;
            return Ok(());
        }
    }
    append_digits(text, first)?;
    append_digits(text, second)
}

/// Puts a space and the digits of a number behind the text.
#[inline(never)]
fn append_digits(text: &mut Vec<u8>, number: u32) -> Result<(), Memory>
    ensures { Adds text.old.items text.new.items (codes " " ++ decimal number) result }
{
    let mut digits = Buffer::new();
    text.extend_from_slice(b" ")?;
    text.extend_from_slice(digits.format(number).as_bytes())?;
    Ok(())
}
