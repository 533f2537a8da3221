//! The record of the office, read.

ghost use Rattle.std.specs.Prelude.{◌≡◌, ◌≤◌, ◌&&◌, nat_le, length, map, List, ℕ, IfOk, MatchResult};
ghost use Rattle.std.specs.List.{list_all};
ghost use Rattle.pc_base.specs.Machine.{FaultAt};
ghost use Rattle.pc_fields.specs.Fields.{u64_kind, FieldReads};
ghost use Rattle.pc_fields.specs.Format.{Reads};
ghost use Rattle.pc_office_spelling.specs.RecordSpelling.{spelled_record};
ghost use Rattle.pc_office_spelling.specs.RecordForm.{CanBeSaved, IsRecordFault};
ghost use Rattle.pc_office_spelling.specs.RecordFormat.{record_format};
ghost use Rattle.pc_office_holdings.specs.Held.{noted_of, record_in, AreAllCounted};
ghost use Rattle.pc_office_holdings.specs.State.{IsSound};
ghost use Rattle.pc_office_records.specs.Loading.{is_accepted};

mod kept;
mod tables;

use crate::loading::kept::read_kept;
use crate::loading::tables::{read_addresses, read_boards, read_users};
use pc_base::ReadFault;
use pc_fields::{Cursor, Halt, end};
use pc_message::LAST_MAIL;
use pc_office_holdings::{Holdings, Users};
use std::alloc::Global;

/// Reads the record of what the office holds. `Malformed` names the first field at which no record
/// goes on. The mails that wait are counted beside each user.
pub fn load(alloc: Global, bytes: &[u8]) -> Result<Holdings, ReadFault>
    ensures found { IfOk result (λ held. CanBeSaved (record_in held) × (spelled_record (record_in held) ≡ bytes.now)) }
    ensures sound { IfOk result IsSound }
    ensures fault { FaultAt result (IsRecordFault bytes.now) }
    ensures within { FaultAt result (λ place. place ≤ length bytes.now) }
{
    let mut cursor = Cursor::new(bytes);
    let read = read_record(alloc, &mut cursor);
    end(read, bytes.len(), cursor.left().len())
}

/// What a record says of the office.
fn read_record(alloc: Global, cursor: &mut Cursor) -> Result<Holdings, Halt>
    ensures read { MatchResult result
        (λ held. Reads record_format cursor.old cursor.new (Ok (record_in held)))
        (λ halt. Reads record_format cursor.old cursor.new (Err halt)) }
    ensures counted { IfOk result AreAllCounted }
{
    let mut users = read_users(alloc, cursor)?;
    let addresses = read_addresses(alloc, cursor, &users)?;
    let boards = read_boards(alloc, cursor, &users, &addresses)?;
    let accepted = read_accepted(cursor, &users)?;
    let kept = read_kept(alloc, cursor, &mut users, accepted)?;
    Ok(Holdings::of(users, addresses, boards, accepted, kept))
}

/// How many mails were accepted: no fewer than are noted of a user.
fn read_accepted<'a>(cursor: &mut Cursor<'a>, users: &Users) -> Result<u64, Halt>
    ensures read { FieldReads u64_kind (is_accepted (map noted_of users.now)) cursor.old cursor.new result }
    ensures last { IfOk result (λ accepted. accepted ≤ LAST_MAIL) }
{
    let mut ahead = cursor.ahead();
    let accepted = ahead.u64(0, LAST_MAIL)?;
    if !are_noted_upto(users, accepted) {
        return Err(Halt::NoField);
    }
    *cursor = ahead;
    Ok(accepted)
}

/// Whether what is noted of no user is past this number.
fn are_noted_upto(users: &Users, accepted: u64) -> bool
    ensures { result ≡ list_all (λ (user : List ℕ × ℕ). nat_le user.1 accepted) (map noted_of users.now) }
{
    for (_, standing) in users.table().iter() {
        if standing.noted > accepted {
            return false;
        }
    }
    true
}
