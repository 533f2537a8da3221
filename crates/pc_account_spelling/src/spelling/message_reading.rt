//! The messages of a record, read.

ghost use Rattle.std.specs.Prelude.{◌≡◌, ◌+◌, ◌*◌, ◌<◌, ◌≤◌, [], ◌∷◌, ◌++◌, IfOk, OnOk, MatchResult};
ghost use Rattle.pc_message.specs.Message.{weight_of};
ghost use Rattle.pc_fields.specs.Format.{Reads};
ghost use Rattle.pc_account_spelling.specs.RecordFormat.{kept_format, messages_from};

use pc_account_history::{Kept, MOST_UIDS};
use pc_base::Memory;
use pc_fields::{Cursor, Halt, read_message};
use std::alloc::Global;

/// The greatest size of a message.
const MOST_BYTES: u32 = 65_536;

/// The messages of a mailbox with this highest uid, so many, and of no more than this weight.
pub fn read_messages(
    alloc: Global,
    cursor: &mut Cursor,
    highest: u32,
    count: u32,
    weight: u32,
) -> Result<Vec<Kept>, Halt>
    requires given { count ≤ highest }
    requires few { highest ≤ MOST_UIDS }
    requires light { 256 * count ≤ weight }
    ensures { MatchResult result
        (λ messages. Reads (messages_from highest count 0 weight []) cursor.old cursor.new (Ok messages.items))
        (λ halt. Reads (messages_from highest count 0 weight []) cursor.old cursor.new (Err halt)) }
{
    let mut messages = Vec::new(alloc);
    let mut low: u32 = 0;
    let mut room = weight;
    for taken in 0..count {
        let left = count - (taken + 1);
        let kept = read_kept(alloc, cursor, low, highest - left, room - 256 * (left + 1))?;
        low = kept.uid;
        room -= kept.message.weight();
        put_behind(&mut messages, kept)?;
    }
    Ok(messages)
}

fn put_behind(messages: &mut Vec<Kept>, kept: Kept) -> Result<(), Memory>
    ensures { OnOk result (messages.new.items ≡ messages.old.items ++ kept ∷ []) }
{
    messages.push(kept)?;
    Ok(())
}

/// A message of a uid behind this one and up to that one, with no more bytes than there is space.
fn read_kept(
    alloc: Global,
    cursor: &mut Cursor,
    low: u32,
    high: u32,
    space: u32,
) -> Result<Kept, Halt>
    requires { low < high }
    ensures read { Reads (kept_format low high space) cursor.old cursor.new result }
    ensures uid { IfOk result (λ kept. (low < kept.uid) × (kept.uid ≤ high)) }
    ensures size { IfOk result (λ kept. weight_of kept.message ≤ space + 256) }
{
    let uid = cursor.u32(low + 1, high)?;
    let flags = cursor.u16(0, u16::MAX)?;
    let message = read_message(alloc, cursor, MOST_BYTES.min(space))?;
    Ok(Kept {
        uid,
        flags,
        message,
    })
}
