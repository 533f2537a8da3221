//! The record of an account, read.

ghost use Rattle.std.specs.Prelude.{◌≡◌, ◌≤◌, ◌^◌, length, [], None, IfOk, MatchResult};
ghost use Rattle.std.specs.Map.{keys_of, lookup};
ghost use Rattle.pc_base.specs.Machine.{FaultAt};
ghost use Rattle.pc_tables.specs.Table.{same};
ghost use Rattle.pc_account_history.specs.Legal.{IsCanonical};
ghost use Rattle.pc_account_spelling.specs.Spelling.{spelled_record};
ghost use Rattle.pc_account_spelling.specs.RecordForm.{IsRecordFault};
ghost use Rattle.pc_fields.specs.Fields.{name_kind, FieldReads, is_new};
ghost use Rattle.pc_fields.specs.Format.{Reads};
ghost use Rattle.pc_account_spelling.specs.RecordFormat.{clients_from, clients_format, subscriptions_from, subscriptions_format, record_format};
ghost use Rattle.pc_account_records.specs.Legal.{IsCanonicalState};

mod lists;
mod mailboxes;

use crate::loading::mailboxes::read_mailboxes;
use indexmap::IndexMap;
use pc_account_history::{MOST_CLIENTS, MOST_SUBSCRIPTIONS};
use pc_account_holdings::Holdings;
use pc_account_spelling::read_digest;
use pc_base::{Name, ReadFault};
use pc_fields::{Cursor, Halt, end};
use pc_message::LAST_MAIL;
use pc_tables::tables;
use std::alloc::Global;

/// The last number that an entry can have had.
const LAST_NUMBER: u64 = 9_223_372_036_854_775_807;

/// Reads the record of what an account holds. `Malformed` names the first field at which no record
/// goes on. The number of the next entry isn't in the record: until it is given by `set_next`, it
/// is past all that there can be.
pub fn load(alloc: Global, bytes: &[u8]) -> Result<Holdings, ReadFault>
    ensures found { IfOk result (λ state. IsCanonicalState state × (spelled_record state.held ≡ bytes.now)) }
    ensures canonical { IfOk result (λ state. IsCanonical state.held state.next) }
    ensures next { IfOk result (λ state. state.next ≡ 2 ^ 63) }
    ensures fault { FaultAt result (IsRecordFault bytes.now) }
    ensures within { FaultAt result (λ place. place ≤ length bytes.now) }
{
    let mut cursor = Cursor::new(bytes);
    let read = read_record(alloc, &mut cursor);
    end(read, bytes.len(), cursor.left().len())
}

/// What a record says of an account.
fn read_record(alloc: Global, cursor: &mut Cursor) -> Result<Holdings, Halt>
    ensures read { MatchResult result
        (λ holdings. Reads record_format cursor.old cursor.new (Ok holdings.held))
        (λ halt. Reads record_format cursor.old cursor.new (Err halt)) }
    ensures next { IfOk result (λ holdings. holdings.next ≡ 2 ^ 63) }
{
    let pulled = cursor.u64(0, LAST_MAIL)?;
    let digest = read_digest(cursor)?;
    let clients = read_clients(alloc, cursor)?;
    let (live, dropped) = read_mailboxes(alloc, cursor, &clients)?;
    let subscriptions = read_subscriptions(alloc, cursor)?;
    Ok(Holdings::of(
        LAST_NUMBER + 1,
        pulled,
        digest,
        clients,
        live,
        dropped,
        subscriptions,
    ))
}

/// The clients with their births.
fn read_clients(alloc: Global, cursor: &mut Cursor) -> Result<IndexMap<Name, u64>, Halt>
    ensures { MatchResult result
        (λ clients. Reads clients_format cursor.old cursor.new (Ok clients.entries))
        (λ halt. Reads clients_format cursor.old cursor.new (Err halt)) }
{
    let count = cursor.u16(0, MOST_CLIENTS as u16)?;
    read_each_client(alloc, cursor, count)
}

fn read_each_client(
    alloc: Global,
    cursor: &mut Cursor,
    count: u16,
) -> Result<IndexMap<Name, u64>, Halt>
    ensures { MatchResult result
        (λ clients. Reads (clients_from count 0 []) cursor.old cursor.new (Ok clients.entries))
        (λ halt. Reads (clients_from count 0 []) cursor.old cursor.new (Err halt)) }
{
    let mut clients = IndexMap::new(alloc);
    let mut low: u64 = 0;
    for taken in 0..count {
        let left = (count - (taken + 1)) as u64;
        let name = read_new_name(cursor, &clients)?;
        let birth = cursor.u64(low + 1, LAST_NUMBER - left)?;
        tables::put(&mut clients, name, birth)?;
        low = birth;
    }
    Ok(clients)
}

/// The subscriptions with their marks.
fn read_subscriptions(alloc: Global, cursor: &mut Cursor) -> Result<IndexMap<Name, u32>, Halt>
    ensures { MatchResult result
        (λ subscriptions. Reads subscriptions_format cursor.old cursor.new (Ok subscriptions.entries))
        (λ halt. Reads subscriptions_format cursor.old cursor.new (Err halt)) }
{
    let count = cursor.u16(0, MOST_SUBSCRIPTIONS as u16)?;
    read_each_subscription(alloc, cursor, count)
}

fn read_each_subscription(
    alloc: Global,
    cursor: &mut Cursor,
    count: u16,
) -> Result<IndexMap<Name, u32>, Halt>
    ensures { MatchResult result
        (λ subscriptions. Reads (subscriptions_from count []) cursor.old cursor.new (Ok subscriptions.entries))
        (λ halt. Reads (subscriptions_from count []) cursor.old cursor.new (Err halt)) }
{
    let mut subscriptions = IndexMap::new(alloc);
    for _taken in 0..count {
        let board = read_new_name(cursor, &subscriptions)?;
        let mark = cursor.u32(0, u32::MAX)?;
        tables::put(&mut subscriptions, board, mark)?;
    }
    Ok(subscriptions)
}

/// A name under which nothing stands yet.
fn read_new_name<'a, V: Drop>(
    cursor: &mut Cursor<'a>,
    table: &IndexMap<Name, V>,
) -> Result<Name, Halt>
    ensures read { FieldReads name_kind (is_new (keys_of table.now.entries)) cursor.old cursor.new result }
    ensures new { IfOk result (λ name. lookup (same name) table.now.entries ≡ None) }
{
    let mut ahead = cursor.ahead();
    let name = ahead.name()?;
    if table.contains_key(&name) {
        return Err(Halt::NoField);
    }
    *cursor = ahead;
    Ok(name)
}
