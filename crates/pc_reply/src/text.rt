//! The text of a line while it is made.

ghost use Rattle.std.specs.Prelude.{◌≡◌, ◌+◌, ◌≤◌, ◌++◌, false, length, decimal, IfOk, IsTrue, ◌↔◌};
ghost use Rattle.pc_base.specs.Line.{has_feed};

use arrayvec::ArrayVec;
use itoa::Buffer;
use pc_base::{Line, LineFault, Memory, Name, ShortText};
use std::alloc::Global;
use std::marker::Model;

/// The bytes so far, kept in place.
#[derive(Drop)]
pub struct Text {
    bytes: ArrayVec<u8, 96>,
}

impl Model for Text {
    ghost use Rattle.std.specs.Prelude.{◌≡◌, ℕ, List, false};
    ghost use Rattle.pc_base.specs.Line.{has_feed};

    ghost Value = { List ℕ };

    ghost view = { λ t. t.bytes.items };

    ghost invariant = { λ t. has_feed t.bytes.items ≡ false };
}

impl Text {
    /// These bytes.
    pub fn of(bytes: &[u8]) -> Text
        requires room { length bytes.now ≤ 96 }
        requires line { has_feed bytes.now ≡ false }
        ensures value { result ≡ bytes.now }
        ensures short { length result ≡ length bytes.now }
    {
        let mut text = ArrayVec::new();
        text.try_extend_from_slice(bytes).unwrap();
        Text { bytes: text }
    }

    /// With these bytes behind it.
    pub fn with(mut self, bytes: &[u8]) -> Text
        requires room { length self + length bytes.now ≤ 96 }
        requires line { has_feed bytes.now ≡ false }
        ensures value { result ≡ self ++ bytes.now }
        ensures short { length result ≡ length self + length bytes.now }
    {
        self.bytes.try_extend_from_slice(bytes).unwrap();
        self
    }

    /// With a number behind it, without leading zeros.
    pub fn with_number(self, number: u64) -> Text
        requires { length self + 20 ≤ 96 }
        ensures value { result ≡ self ++ decimal number }
        ensures short { length result ≤ length self + 20 }
    {
        let mut digits = Buffer::new();
        self.with(digits.format(number).as_bytes())
    }

    /// With a name behind it.
    pub fn with_name(self, name: &Name) -> Text
        requires { length self + 32 ≤ 96 }
        ensures value { result ≡ self ++ name.now }
        ensures short { length result ≤ length self + 32 }
    {
        self.with(name.bytes())
    }

    /// The text.
    pub fn finished(&self) -> ShortText<96>
        ensures value { result ≡ self.now }
        ensures short { length self.now ≤ 96 }
    {
        ShortText::copy_of(&self.bytes)
    }

    /// Whether the line is just the text.
    pub fn is_line(&self, line: &[u8]) -> bool
        ensures { IsTrue result ↔ (self.now ≡ line.now) }
    {
        is_same(&self.bytes, line)
    }

    /// The text as a line.
    pub fn line(&self, alloc: Global) -> Result<Line, Memory>
        ensures { IfOk result (λ line. line ≡ self.now) }
    {
        match Line::copy_of(alloc, &self.bytes) {
            Ok(line) => Ok(line),
            Err(LineFault::Memory) => Err(Memory),
            Err(_) => unreachable!(),
        }
    }
}

/// Whether the bytes are the same.
pub fn is_same(one: &[u8], other: &[u8]) -> bool
    ensures { IsTrue result ↔ (one.now ≡ other.now) }
{
    one == other
}
