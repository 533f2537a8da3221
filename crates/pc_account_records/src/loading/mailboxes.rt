//! The mailboxes of a record, read.

ghost use Rattle.std.specs.Prelude.{◌≡◌, ◌+◌, ◌-◌, ◌≤◌, not, ◌||◌, ◌++◌, [], length, None, if◌then◌else◌, IfOk, OnOk, MatchResult};
ghost use Rattle.std.specs.Map.{keys_of, lookup};
ghost use Rattle.pc_tables.specs.Table.{same};
ghost use Rattle.pc_mailbox.specs.UpdateList.{listed_in as listed_in_all};
ghost use Rattle.pc_fields.specs.Fields.{name_kind, bool_kind, FieldReads, is_new};
ghost use Rattle.pc_fields.specs.Format.{Reads};
ghost use Rattle.pc_account_spelling.specs.RecordFormat.{has_none, mailbox_format, mailboxes_from, mailboxes_format};
ghost use Rattle.pc_account_holdings.specs.Mailboxes.{weight_in, listed_in, weight_held, listed_held};
ghost use Rattle.pc_account_records.specs.Loading.{messages_format, AreMessagesWithin, lists_format, next_format, live_with, dropped_with, AreWithin};

use crate::loading::lists::read_lists;
use indexmap::IndexMap;
use pc_account_history::{
    Kept, MOST_CHANGES, MOST_CLIENTS, MOST_MAILBOXES, MOST_MESSAGES, MOST_UIDS, MOST_WEIGHT,
};
use pc_account_holdings::Mailboxes;
use pc_account_spelling::read_messages;
use pc_base::{Memory, Name};
use pc_fields::{Cursor, Halt};
use pc_mailbox::{Mailbox, UpdateList};
use std::alloc::Global;

/// The mailboxes that live, and the others.
pub(crate) fn read_mailboxes(
    alloc: Global,
    cursor: &mut Cursor,
    clients: &IndexMap<Name, u64>,
) -> Result<(Mailboxes, Mailboxes), Halt>
    requires { length clients.now.entries ≤ MOST_CLIENTS }
    ensures { Reads (mailboxes_format clients.now.entries) cursor.old cursor.new result }
{
    let count = cursor.u16(0, MOST_MAILBOXES as u16)?;
    read_each_mailbox(alloc, cursor, clients, count)
}

fn read_each_mailbox(
    alloc: Global,
    cursor: &mut Cursor,
    clients: &IndexMap<Name, u64>,
    count: u16,
) -> Result<(Mailboxes, Mailboxes), Halt>
    requires { length clients.now.entries ≤ MOST_CLIENTS }
    ensures { Reads (mailboxes_from clients.now.entries count [] []) cursor.old cursor.new result }
{
    let mut live = Mailboxes::new(alloc);
    let mut dropped = Mailboxes::new(alloc);
    for _taken in 0..count {
        let next = read_next(alloc, cursor, clients, &live, &dropped)?;
        put(&mut live, &mut dropped, next)?;
    }
    Ok((live, dropped))
}

/// Puts a mailbox behind those that live, or behind the others.
fn put(
    live: &mut Mailboxes,
    dropped: &mut Mailboxes,
    next: (Name, bool, Mailbox),
) -> Result<(), Memory>
    requires not_live { lookup (same next.0) live.old ≡ None }
    requires not_dropped { lookup (same next.0) dropped.old ≡ None }
    ensures live { OnOk result (live.new ≡ live_with next live.old) }
    ensures dropped { OnOk result (dropped.new ≡ dropped_with next dropped.old) }
{
    let (name, lives, mailbox) = next;
    if lives {
        live.put(name, mailbox)
    } else {
        dropped.put(name, mailbox)
    }
}

/// A mailbox more behind these: its name, whether it lives, and what stands under it.
fn read_next(
    alloc: Global,
    cursor: &mut Cursor,
    clients: &IndexMap<Name, u64>,
    live: &Mailboxes,
    dropped: &Mailboxes,
) -> Result<(Name, bool, Mailbox), Halt>
    requires clients { length clients.now.entries ≤ MOST_CLIENTS }
    requires within { AreWithin live.now dropped.now }
    ensures read { Reads (next_format clients.now.entries live.now dropped.now) cursor.old cursor.new result }
    ensures new { IfOk result (λ next. (lookup (same next.0) live.now ≡ None) × (lookup (same next.0) dropped.now ≡ None)) }
    ensures within { IfOk result (λ next. AreWithin (live_with next live.now) (dropped_with next dropped.now)) }
{
    let name = read_unused_name(cursor, live, dropped)?;
    let lives = read_lives(cursor, dropped)?;
    let most = most_messages(lives);
    let weight = weight_left(live);
    let changes = changes_left(live, dropped);
    let mailbox = read_mailbox(alloc, cursor, clients, most, weight, changes)?;
    Ok((name, lives, mailbox))
}

/// A name under which no mailbox stands yet.
fn read_unused_name<'a>(
    cursor: &mut Cursor<'a>,
    live: &Mailboxes,
    dropped: &Mailboxes,
) -> Result<Name, Halt>
    ensures read { FieldReads name_kind (is_new (keys_of live.now ++ keys_of dropped.now)) cursor.old cursor.new result }
    ensures new { IfOk result (λ name. (lookup (same name) live.now ≡ None) × (lookup (same name) dropped.now ≡ None)) }
{
    let mut ahead = cursor.ahead();
    let name = ahead.name()?;
    if live.get(&name).is_some() {
        return Err(Halt::NoField);
    }
    if dropped.get(&name).is_some() {
        return Err(Halt::NoField);
    }
    *cursor = ahead;
    Ok(name)
}

/// Whether a mailbox lives. None does behind those that don't.
fn read_lives<'a>(cursor: &mut Cursor<'a>, dropped: &Mailboxes) -> Result<bool, Halt>
    ensures { FieldReads bool_kind (λ lives. not lives || has_none dropped.now) cursor.old cursor.new result }
{
    let mut ahead = cursor.ahead();
    let lives = ahead.bool()?;
    if lives && dropped.count() > 0 {
        return Err(Halt::NoField);
    }
    *cursor = ahead;
    Ok(lives)
}

/// How many messages a mailbox may have.
fn most_messages(lives: bool) -> u32
    ensures { result ≡ (if lives then MOST_MESSAGES else 0) }
{
    if lives { MOST_MESSAGES as u32 } else { 0 }
}

/// How much more messages may weigh.
fn weight_left(live: &Mailboxes) -> u32
    requires { weight_held live.now ≤ MOST_WEIGHT }
    ensures { result ≡ MOST_WEIGHT - weight_held live.now }
{
    MOST_WEIGHT - live.weight() as u32
}

/// How many changes more there may be.
fn changes_left(live: &Mailboxes, dropped: &Mailboxes) -> u32
    requires { listed_held live.now + listed_held dropped.now ≤ MOST_CHANGES }
    ensures { result ≡ MOST_CHANGES - (listed_held live.now + listed_held dropped.now) }
{
    MOST_CHANGES as u32 - (live.changes() + dropped.changes()) as u32
}

/// What stands under a mailbox name: at most so many messages, of this weight, and so many changes.
fn read_mailbox(
    alloc: Global,
    cursor: &mut Cursor,
    clients: &IndexMap<Name, u64>,
    most: u32,
    weight: u32,
    changes: u32,
) -> Result<Mailbox, Halt>
    requires clients { length clients.now.entries ≤ MOST_CLIENTS }
    requires most { most ≤ MOST_MESSAGES }
    ensures read { Reads (mailbox_format clients.now.entries most weight changes) cursor.old cursor.new result }
    ensures light { IfOk result (λ mailbox. weight_in mailbox ≤ weight) }
    ensures listed { IfOk result (λ mailbox. listed_in mailbox ≤ changes) }
{
    let highest = cursor.u32(0, MOST_UIDS)?;
    let messages = read_counted_messages(alloc, cursor, highest, most, weight)?;
    let lists = read_counted_lists(alloc, cursor, clients, highest, changes)?;
    Ok(Mailbox::of(highest, messages, lists))
}

/// The messages of a mailbox: at most so many, of this weight.
fn read_counted_messages(
    alloc: Global,
    cursor: &mut Cursor,
    highest: u32,
    most: u32,
    weight: u32,
) -> Result<Vec<Kept>, Halt>
    requires { highest ≤ MOST_UIDS }
    ensures read { MatchResult result
        (λ messages. Reads (messages_format highest most weight) cursor.old cursor.new (Ok messages.items))
        (λ halt. Reads (messages_format highest most weight) cursor.old cursor.new (Err halt)) }
    ensures within { IfOk result (λ messages. AreMessagesWithin highest most weight messages.items) }
{
    let count = cursor.u32(0, most.min(highest.min(weight / 256)))?;
    read_messages(alloc, cursor, highest, count, weight)
}

/// The update lists of a mailbox, one for each client, with no more changes than there is room.
fn read_counted_lists(
    alloc: Global,
    cursor: &mut Cursor,
    clients: &IndexMap<Name, u64>,
    highest: u32,
    room: u32,
) -> Result<Vec<(Name, UpdateList)>, Halt>
    requires { length clients.now.entries ≤ MOST_CLIENTS }
    ensures read { MatchResult result
        (λ lists. Reads (lists_format clients.now.entries highest room) cursor.old cursor.new (Ok lists.items))
        (λ halt. Reads (lists_format clients.now.entries highest room) cursor.old cursor.new (Err halt)) }
    ensures each { IfOk result (λ lists. length lists.items ≡ length clients.now.entries) }
    ensures few { IfOk result (λ lists. listed_in_all lists.items ≤ room) }
{
    let count = clients.len() as u16;
    cursor.u16(count, count)?;
    read_lists(alloc, cursor, clients, highest, room)
}
