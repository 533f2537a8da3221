//! A message: a list of lines of bounded size.

ghost use Rattle.std.specs.Prelude.{◌≡◌, ℕ, ◌+◌, ◌≤◌, IsTrue, IfOk, IfErr, IfSome};
ghost use Rattle.std.specs.Option.{SomeIff};
ghost use Rattle.std.specs.Result.{OkIff};
ghost use Rattle.std.specs.List.{list_all};
ghost use Rattle.pc_base.specs.Line.{is_line};
ghost use Rattle.pc_message.specs.Header.{header_of};
ghost use Rattle.pc_message.specs.Message.{size_of, weight_of};

use crate::header::header_count;
use pc_base::{Line, Lines, Memory};
use std::alloc::Global;
use std::marker::Model;

/// Lines whose size, with two bytes for the end of each, is at most 65,536 bytes.
#[derive(Drop)]
pub struct Message {
    lines: Lines,
    bytes: u32,
}

impl Model for Message {
    ghost use Rattle.std.specs.Prelude.{ℕ, List};
    ghost use Rattle.pc_message.specs.Message.{IsSized};

    ghost Value = { List (List ℕ) };

    ghost view = { λ message. message.lines };

    ghost invariant = { λ message. IsSized message.lines message.bytes };
}

impl Message {
    /// The message of these lines. They are handed back exactly where their size passes 65,536 bytes.
    pub fn of(lines: Lines) -> Result<Message, Lines>
        ensures message { OkIff result (size_of lines ≤ 65536) lines }
        ensures back { IfErr result (λ back. back ≡ lines) }
    {
        match size_within(lines.as_slice()) {
            Some(bytes) => Ok(Message { lines, bytes }),
            None => Err(lines),
        }
    }

    /// The bytes of all lines, with two for the end of each.
    pub fn size(&self) -> u32
        ensures size { result ≡ size_of self.now }
        ensures bound { result ≤ 65536 }
        ensures lines { IsTrue (list_all is_line self.now) }
    {
        self.bytes
    }

    /// The lines, in order.
    pub fn lines(&self) -> &Lines
        ensures { result.now ≡ self.now }
    {
        &self.lines
    }

    /// The message, as the lines that it is.
    pub fn into_lines(self) -> Lines
        ensures { result ≡ self }
    {
        self.lines
    }

    /// The lines before the first empty one, or all.
    pub fn header(&self, alloc: Global) -> Result<Lines, Memory>
        ensures { IfOk result (λ lines. lines ≡ header_of self.now) }
    {
        let lines = self.lines.as_slice();
        Lines::copy_of(alloc, &lines[..header_count(lines)])
    }

    /// What a kept message counts for: its size and 256 bytes more.
    pub fn weight(&self) -> u32
        ensures weight { result ≡ weight_of self.now }
        ensures bound { result ≤ 65792 }
        ensures lines { IsTrue (list_all is_line self.now) }
    {
        self.size() + 256
    }

    /// Another message with the same lines.
    pub fn copy(&self, alloc: Global) -> Result<Message, Memory>
        ensures { IfOk result (λ copy. copy ≡ self.now) }
    {
        Ok(Message {
            lines: self.lines.copy(alloc)?,
            bytes: self.bytes,
        })
    }
}

/// The size of these lines, where it is at most 65,536 bytes.
fn size_within(lines: &[Line]) -> Option<u32>
    ensures size { SomeIff result (size_of lines.now ≤ 65536) (size_of lines.now) }
    ensures lines { IfSome result (λ _. IsTrue (list_all is_line lines.now)) }
{
    let mut size: u32 = 0;
    for line in lines {
        size += line.bytes().len() as u32 + 2;
        if size > 65_536 {
            return None;
        }
    }
    Some(size)
}
