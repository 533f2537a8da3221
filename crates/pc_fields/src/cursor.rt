//! Bytes that are read field by field.

ghost use Rattle.std.specs.Prelude.{◌≡◌, ◌+◌, ◌≤◌, ◌++◌, ◌^◌, ◌<◌, length, drop, IsTrue, IfSome};
ghost use Rattle.std.specs.Int.{w16, w32, w64};
ghost use Rattle.pc_fields.specs.Fields.{name_kind, u8_kind, u16_kind, u32_kind, u64_kind, bool_kind, digest_kind, line_kind, any, within as in_range, has_room, FieldReads, FieldAt, LineAt, number_at};
ghost use Rattle.pc_fields.specs.declared.cursor.Halt.TheVariants as halt;

use pc_base::{Line, LineFault, Memory, Name};
use std::alloc::Global;
use std::marker::Model;

/// Why reading stopped.
#[derive(Clone, Copy)]
pub enum Halt {
    /// None goes on with the field at which the cursor stands.
    NoField,
    /// Want of memory.
    Memory,
}

impl From<Memory> for Halt {
    ghost use Rattle.std.specs.Prelude.{◌≡◌};
    ghost use Rattle.pc_fields.specs.declared.cursor.Halt.TheVariants as halt;

    ghost from_gives = { λ _ made. made ≡ halt.Memory };

    fn from(_memory: Memory) -> Halt {
        Halt::Memory
    }
}

/// Bytes that are still to be read. Each call reads one field; where it finds none, nothing is read.
#[derive(Drop)]
pub struct Cursor<'a> {
    left: &'a [u8],
}

impl<'a> Model for Cursor<'a> {
    ghost use Rattle.std.specs.Prelude.{ℕ, List};

    ghost Value = { List ℕ };

    ghost view = { λ c. c.left.now };
}

impl<'a> Cursor<'a> {
    /// At the first of these bytes.
    pub fn new(bytes: &'a [u8]) -> Cursor<'a>
        ensures { result ≡ bytes.now }
    {
        Cursor { left: bytes }
    }

    /// The bytes that are left.
    pub fn left(&self) -> &[u8]
        ensures { result.now ≡ self.now }
    {
        self.left
    }

    /// A cursor that stands where this one stands, to look ahead.
    pub fn ahead(&self) -> Cursor<'a>
        ensures { result ≡ self.now }
    {
        Cursor { left: self.left }
    }

    /// Passes over so many bytes.
    fn skip(&mut self, count: usize)
        requires { count ≤ length self.old }
        ensures { self.new ≡ drop count self.old }
    {
        self.left = &self.left[count..];
    }

    /// A number of one byte, in this range.
    pub fn u8(&mut self, least: u8, most: u8) -> Result<u8, Halt>
        ensures { FieldReads u8_kind (in_range least most) self.old self.new result }
    {
        let [number, ..] = self.left else {
            return Err(Halt::NoField);
        };
        let number = *number;
        if !is_within(u64::from(least), u64::from(most), u64::from(number)) {
            return Err(Halt::NoField);
        }
        self.skip(1);
        Ok(number)
    }

    /// A number of two bytes, in this range.
    pub fn u16(&mut self, least: u16, most: u16) -> Result<u16, Halt>
        ensures { FieldReads u16_kind (in_range least most) self.old self.new result }
    {
        let Some(number) = u16_at(self.left, least, most) else {
            return Err(Halt::NoField);
        };
        self.skip(2);
        Ok(number)
    }

    /// A number of four bytes, in this range.
    pub fn u32(&mut self, least: u32, most: u32) -> Result<u32, Halt>
        ensures { FieldReads u32_kind (in_range least most) self.old self.new result }
    {
        let Some(number) = u32_at(self.left, least, most) else {
            return Err(Halt::NoField);
        };
        self.skip(4);
        Ok(number)
    }

    /// A number of eight bytes, in this range.
    pub fn u64(&mut self, least: u64, most: u64) -> Result<u64, Halt>
        ensures { FieldReads u64_kind (in_range least most) self.old self.new result }
    {
        let Some(number) = u64_at(self.left, least, most) else {
            return Err(Halt::NoField);
        };
        self.skip(8);
        Ok(number)
    }

    /// 1 for on and 0 for off.
    pub fn bool(&mut self) -> Result<bool, Halt>
        ensures { FieldReads bool_kind any self.old self.new result }
    {
        let on = match self.left {
            [0, ..] => false,
            [1, ..] => true,
            _ => return Err(Halt::NoField),
        };
        self.skip(1);
        Ok(on)
    }

    /// A name.
    pub fn name(&mut self) -> Result<Name, Halt>
        ensures { FieldReads name_kind any self.old self.new result }
    {
        let [count, rest @ ..] = self.left else {
            return Err(Halt::NoField);
        };
        let count = usize::from(*count);
        if rest.len() < count {
            return Err(Halt::NoField);
        }
        let Some(name) = Name::read(&rest[..count]) else {
            return Err(Halt::NoField);
        };
        self.skip(count + 1);
        Ok(name)
    }

    /// The digest of a password.
    pub fn digest(&mut self) -> Result<[u8; 32], Halt>
        ensures { FieldReads digest_kind any self.old self.new result }
    {
        let Some(digest) = digest_at(self.left) else {
            return Err(Halt::NoField);
        };
        self.skip(32);
        Ok(digest)
    }

    /// A line of at most so many bytes.
    pub fn line(&mut self, alloc: Global, room: usize) -> Result<Line, Halt>
        ensures { FieldReads line_kind (has_room room) self.old self.new result }
    {
        let line = line_at(alloc, self.left, room)?;
        self.skip(line.bytes().len() + 2);
        Ok(line)
    }
}

/// The line at the front of the bytes.
fn line_at(alloc: Global, bytes: &[u8], room: usize) -> Result<Line, Halt>
    ensures { LineAt room bytes.now result }
{
    let Some(count) = first_u16(bytes) else {
        return Err(Halt::NoField);
    };
    let count = usize::from(count);
    let rest = &bytes[2..];
    if room < count {
        return Err(Halt::NoField);
    }
    if rest.len() < count {
        return Err(Halt::NoField);
    }
    match Line::copy_of(alloc, &rest[..count]) {
        Ok(line) => Ok(line),
        Err(LineFault::Memory) => Err(Halt::Memory),
        Err(LineFault::TooLong) => Err(Halt::NoField),
        Err(LineFault::HasLf) => Err(Halt::NoField),
    }
}

fn digest_at(bytes: &[u8]) -> Option<[u8; 32]>
    ensures { FieldAt digest_kind any bytes.now 32 result }
{
    if bytes.len() < 32 {
        return None;
    }
    let mut digest = [0; 32];
    digest.copy_from_slice(&bytes[..32]);
    Some(digest)
}

fn is_within(least: u64, most: u64, number: u64) -> bool
    ensures { result ≡ in_range least most number }
{
    least <= number && number <= most
}

/// The number at the front of the bytes, where it is in this range.
fn u16_at(bytes: &[u8], least: u16, most: u16) -> Option<u16>
    ensures { FieldAt u16_kind (in_range least most) bytes.now 2 result }
{
    let Some(number) = first_u16(bytes) else {
        return None;
    };
    if !is_within(u64::from(least), u64::from(most), u64::from(number)) {
        return None;
    }
    Some(number)
}

fn first_u16(bytes: &[u8]) -> Option<u16>
    ensures number { result ≡ number_at w16 bytes.now }
    ensures range { IfSome result (λ number. number < 2 ^ 16) }
{
    let Some(front) = bytes.first_chunk::<2>() else {
        return None;
    };
    Some(u16::from_be_bytes(*front))
}

/// The number at the front of the bytes, where it is in this range.
fn u32_at(bytes: &[u8], least: u32, most: u32) -> Option<u32>
    ensures { FieldAt u32_kind (in_range least most) bytes.now 4 result }
{
    let Some(number) = first_u32(bytes) else {
        return None;
    };
    if !is_within(u64::from(least), u64::from(most), u64::from(number)) {
        return None;
    }
    Some(number)
}

fn first_u32(bytes: &[u8]) -> Option<u32>
    ensures number { result ≡ number_at w32 bytes.now }
    ensures range { IfSome result (λ number. number < 2 ^ 32) }
{
    let Some(front) = bytes.first_chunk::<4>() else {
        return None;
    };
    Some(u32::from_be_bytes(*front))
}

/// The number at the front of the bytes, where it is in this range.
fn u64_at(bytes: &[u8], least: u64, most: u64) -> Option<u64>
    ensures { FieldAt u64_kind (in_range least most) bytes.now 8 result }
{
    let Some(number) = first_u64(bytes) else {
        return None;
    };
    if !is_within(least, most, number) {
        return None;
    }
    Some(number)
}

fn first_u64(bytes: &[u8]) -> Option<u64>
    ensures number { result ≡ number_at w64 bytes.now }
    ensures range { IfSome result (λ number. number < 2 ^ 64) }
{
    let Some(front) = bytes.first_chunk::<8>() else {
        return None;
    };
    Some(u64::from_be_bytes(*front))
}
