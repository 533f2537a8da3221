//! Fields, written one after the other. After `Err` nothing is known of what was appended.

ghost use Rattle.std.specs.Prelude.{◌≡◌, ◌++◌, ◌^◌, ◌<◌, length, OnOk};
ghost use Rattle.std.specs.List.{concat};
ghost use Rattle.pc_fields.specs.FieldBytes.{u8_field, u16_field, u32_field, u64_field, bool_field, name_field, line_field, message_fields};

use pc_base::{Bytes, Line, Memory, Name};
use pc_message::Message;

/// Appends a number of one byte.
pub fn write_u8(out: &mut Bytes, number: u8) -> Result<(), Memory>
    ensures { OnOk result (out.new ≡ out.old ++ u8_field number) }
{
    out.append(&[number])
}

/// Appends a number of two bytes.
#[tactic(auto, unfolding(crate::specs::FieldBytes::u16_field))]
pub fn write_u16(out: &mut Bytes, number: u16) -> Result<(), Memory>
    ensures { OnOk result (out.new ≡ out.old ++ u16_field number) }
{
    out.append(&number.to_be_bytes())
}

/// Appends a number of four bytes.
#[tactic(auto, unfolding(crate::specs::FieldBytes::u32_field))]
pub fn write_u32(out: &mut Bytes, number: u32) -> Result<(), Memory>
    ensures { OnOk result (out.new ≡ out.old ++ u32_field number) }
{
    out.append(&number.to_be_bytes())
}

/// Appends a number of eight bytes.
#[tactic(auto, unfolding(crate::specs::FieldBytes::u64_field))]
pub fn write_u64(out: &mut Bytes, number: u64) -> Result<(), Memory>
    ensures { OnOk result (out.new ≡ out.old ++ u64_field number) }
{
    out.append(&number.to_be_bytes())
}

/// Appends 1 for yes and 0 for no.
pub fn write_bool(out: &mut Bytes, yes: bool) -> Result<(), Memory>
    ensures { OnOk result (out.new ≡ out.old ++ bool_field yes) }
{
    write_u8(out, if yes { 1 } else { 0 })
}

/// Appends a name.
pub fn write_name(out: &mut Bytes, name: &Name) -> Result<(), Memory>
    ensures { OnOk result (out.new ≡ out.old ++ name_field name.now) }
{
    let bytes = name.bytes();
    write_u8(out, bytes.len() as u8)?;
    out.append(bytes)
}

/// Appends a line.
fn write_line(out: &mut Bytes, line: &Line) -> Result<(), Memory>
    ensures { OnOk result (out.new ≡ out.old ++ line_field line.now) }
{
    let bytes = line.bytes();
    write_u16(out, bytes.len() as u16)?;
    out.append(bytes)
}

/// Appends a message.
pub fn write_message(out: &mut Bytes, message: &Message) -> Result<(), Memory>
    ensures { OnOk result (out.new ≡ out.old ++ concat (message_fields message.now)) }
{
    let lines = message.lines().as_slice();
    write_u32(out, line_count(message))?;
    for line in lines {
        write_line(out, line)?;
    }
    Ok(())
}

/// How many lines a message has.
fn line_count(message: &Message) -> u32
    ensures { result ≡ length message.now }
{
    let _size = message.size();
    message.lines().as_slice().len() as u32
}
