//! Messages, read.

ghost use Rattle.std.specs.Prelude.{◌≡◌, ◌+◌, ◌*◌, ◌≤◌, IfOk};
ghost use Rattle.pc_message.specs.Message.{size_of};
ghost use Rattle.pc_fields.specs.Format.{Reads};
ghost use Rattle.pc_fields.specs.MessageFormat.{lines_format, message_within};

use crate::cursor::{Cursor, Halt};
use pc_base::Lines;
use pc_message::Message;
use std::alloc::Global;

/// A message of at most this size.
pub fn read_message(alloc: Global, cursor: &mut Cursor, room: u32) -> Result<Message, Halt>
    requires { room ≤ 65536 }
    ensures read { Reads (message_within room) cursor.old cursor.new result }
    ensures size { IfOk result (λ message. size_of message ≤ room) }
{
    let count = cursor.u32(0, room / 2)?;
    let most = (room - 2 * count) as usize;
    let lines = read_lines(alloc, cursor, count, most)?;
    match Message::of(lines) {
        Ok(message) => Ok(message),
        Err(_) => unreachable!(),
    }
}

/// So many lines, with no more bytes than this.
fn read_lines(alloc: Global, cursor: &mut Cursor, count: u32, most: usize) -> Result<Lines, Halt>
    ensures read { Reads (lines_format count most) cursor.old cursor.new result }
    ensures size { IfOk result (λ lines. size_of lines ≤ 2 * count + most) }
{
    let mut lines = Lines::new(alloc);
    let mut room = most;
    for _taken in 0..count {
        let line = cursor.line(alloc, room)?;
        room -= line.bytes().len();
        lines.push(line)?;
    }
    Ok(lines)
}
