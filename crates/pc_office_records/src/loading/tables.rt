//! The tables of a record, read.

ghost use Rattle.std.specs.Prelude.{◌≡◌, ℕ, ◌+◌, ◌-◌, ◌*◌, ◌/◌, ◌≤◌, ◌++◌, [], ◌∷◌, min, None, map, List, IfOk, MatchResult};
ghost use Rattle.std.specs.Map.{keys_of, lookup};
ghost use Rattle.pc_message.specs.Message.{weight_of};
ghost use Rattle.pc_tables.specs.Table.{same, is_among, total};
ghost use Rattle.pc_fields.specs.Fields.{name_kind, FieldReads, is_new};
ghost use Rattle.pc_fields.specs.Format.{Reads};
ghost use Rattle.pc_office_spelling.specs.RecordFormat.{items_from, user_format, users_format, address_format, most_addresses, addresses_format, message_format, board_format, boards_format};
ghost use Rattle.pc_office_holdings.specs.Held.{noted_of, weight_on_all};
ghost use Rattle.pc_office_records.specs.Loading.{IsUncounted, AreUncounted};

use indexmap::IndexMap;
use pc_base::Name;
use pc_fields::{Cursor, Halt, read_message};
use pc_message::LAST_MAIL;
use pc_office_history::{
    MOST_ADDRESSES, MOST_BOARD_MESSAGES, MOST_BOARD_WEIGHT, MOST_BOARDS, MOST_USERS, Target,
};
use pc_office_holdings::{Boards, Messages, Standing, Users};
use pc_tables::tables;
use std::alloc::Global;

/// The users with what is noted of them. Nothing is counted yet.
pub(crate) fn read_users(alloc: Global, cursor: &mut Cursor) -> Result<Users, Halt>
    ensures read { MatchResult result
        (λ users. Reads users_format cursor.old cursor.new (Ok (map noted_of users)))
        (λ halt. Reads users_format cursor.old cursor.new (Err halt)) }
    ensures uncounted { IfOk result AreUncounted }
{
    let count = cursor.u16(0, MOST_USERS as u16)?;
    read_each_user(alloc, cursor, count)
}

fn read_each_user(alloc: Global, cursor: &mut Cursor, count: u16) -> Result<Users, Halt>
    ensures read { MatchResult result
        (λ users. Reads (items_from user_format count []) cursor.old cursor.new (Ok (map noted_of users)))
        (λ halt. Reads (items_from user_format count []) cursor.old cursor.new (Err halt)) }
    ensures uncounted { IfOk result AreUncounted }
{
    let mut users = Users::new(alloc);
    for _taken in 0..count {
        let (name, standing) = read_user(cursor, &users)?;
        users.put(alloc, name, standing)?;
    }
    Ok(users)
}

/// A user more behind these.
fn read_user(cursor: &mut Cursor, users: &Users) -> Result<(Name, Standing), Halt>
    ensures read { MatchResult result
        (λ user. Reads (user_format 0 (map noted_of users.now)) cursor.old cursor.new (Ok (noted_of user)))
        (λ halt. Reads (user_format 0 (map noted_of users.now)) cursor.old cursor.new (Err halt)) }
    ensures new { IfOk result (λ user. lookup (same user.0) users.now ≡ None) }
    ensures uncounted { IfOk result IsUncounted }
{
    let name = read_new_name(cursor, users.table())?;
    let noted = cursor.u64(0, LAST_MAIL)?;
    let mut standing = Standing::new();
    standing.noted = noted;
    Ok((name, standing))
}

/// The addresses with whom they are for, each of these users.
pub(crate) fn read_addresses(
    alloc: Global,
    cursor: &mut Cursor,
    users: &Users,
) -> Result<IndexMap<Name, Target>, Halt>
    ensures { MatchResult result
        (λ addresses. Reads (addresses_format (keys_of users.now)) cursor.old cursor.new (Ok addresses.entries))
        (λ halt. Reads (addresses_format (keys_of users.now)) cursor.old cursor.new (Err halt)) }
{
    let most = most_addresses(users);
    let count = cursor.u16(0, most)?;
    read_each_address(alloc, cursor, users, count)
}

/// How many addresses there may be.
fn most_addresses(users: &Users) -> u16
    ensures { result ≡ most_addresses (keys_of users.now) }
{
    if users.count() == 0 {
        0
    } else {
        MOST_ADDRESSES as u16
    }
}

fn read_each_address(
    alloc: Global,
    cursor: &mut Cursor,
    users: &Users,
    count: u16,
) -> Result<IndexMap<Name, Target>, Halt>
    ensures { MatchResult result
        (λ addresses. Reads (items_from (address_format (keys_of users.now)) count []) cursor.old cursor.new (Ok addresses.entries))
        (λ halt. Reads (items_from (address_format (keys_of users.now)) count []) cursor.old cursor.new (Err halt)) }
{
    let mut addresses = IndexMap::new(alloc);
    for _taken in 0..count {
        let (name, target) = read_address(cursor, users, &addresses)?;
        tables::put(&mut addresses, name, target)?;
    }
    Ok(addresses)
}

/// An address more behind these, for one of the users.
fn read_address(
    cursor: &mut Cursor,
    users: &Users,
    addresses: &IndexMap<Name, Target>,
) -> Result<(Name, Target), Halt>
    ensures read { Reads (address_format (keys_of users.now) 0 addresses.now.entries) cursor.old cursor.new result }
    ensures new { IfOk result (λ address. lookup (same address.0) addresses.now.entries ≡ None) }
{
    let name = read_new_name(cursor, addresses)?;
    let user = read_user_name(cursor, users)?;
    let mailbox = cursor.name()?;
    Ok((name, Target { user, mailbox }))
}

/// The boards with their messages. None has the name of a user or an address.
pub(crate) fn read_boards(
    alloc: Global,
    cursor: &mut Cursor,
    users: &Users,
    addresses: &IndexMap<Name, Target>,
) -> Result<Boards, Halt>
    ensures { Reads (boards_format (keys_of users.now ++ keys_of addresses.now.entries)) cursor.old cursor.new result }
{
    let count = cursor.u16(0, MOST_BOARDS as u16)?;
    read_each_board(alloc, cursor, users, addresses, count)
}

fn read_each_board(
    alloc: Global,
    cursor: &mut Cursor,
    users: &Users,
    addresses: &IndexMap<Name, Target>,
    count: u16,
) -> Result<Boards, Halt>
    ensures { Reads (items_from (board_format (keys_of users.now ++ keys_of addresses.now.entries)) count []) cursor.old cursor.new result }
{
    let mut boards = Boards::new(alloc);
    for _taken in 0..count {
        let (name, messages) = read_board(alloc, cursor, users, addresses, &boards)?;
        boards.put(alloc, name, messages)?;
    }
    Ok(boards)
}

/// A board more behind these, with its messages.
fn read_board(
    alloc: Global,
    cursor: &mut Cursor,
    users: &Users,
    addresses: &IndexMap<Name, Target>,
    boards: &Boards,
) -> Result<(Name, Messages), Halt>
    requires { weight_on_all boards.now ≤ MOST_BOARD_WEIGHT }
    ensures read { Reads (board_format (keys_of users.now ++ keys_of addresses.now.entries) 0 boards.now) cursor.old cursor.new result }
    ensures new { IfOk result (λ board. lookup (same board.0) boards.now ≡ None) }
    ensures light { IfOk result (λ board. weight_on_all (boards.now ++ board ∷ []) ≤ MOST_BOARD_WEIGHT) }
{
    let name = read_unused_name(cursor, users, addresses, boards)?;
    let room = weight_left(boards);
    let count = cursor.u32(0, (MOST_BOARD_MESSAGES as u32).min(room / 256))?;
    let messages = read_messages(alloc, cursor, count, room)?;
    Ok((name, messages))
}

/// How much more messages may weigh.
fn weight_left(boards: &Boards) -> u32
    requires { weight_on_all boards.now ≤ MOST_BOARD_WEIGHT }
    ensures { result ≡ MOST_BOARD_WEIGHT - weight_on_all boards.now }
{
    MOST_BOARD_WEIGHT - boards.weight() as u32
}

/// So many messages of a board, which weigh no more than there is room.
fn read_messages(
    alloc: Global,
    cursor: &mut Cursor,
    count: u32,
    room: u32,
) -> Result<Messages, Halt>
    requires { 256 * count ≤ room }
    ensures read { Reads (items_from (message_format room) count []) cursor.old cursor.new result }
    ensures light { IfOk result (λ messages. total weight_of messages ≤ room) }
{
    let mut messages = Messages::new(alloc);
    let mut left = room - 256 * count;
    for _taken in 0..count {
        let message = read_message(alloc, cursor, left.min(65_536))?;
        left -= message.size();
        messages.push(message)?;
    }
    Ok(messages)
}

/// A name under which nothing stands yet.
fn read_new_name<'a, V: Drop>(
    cursor: &mut Cursor<'a>,
    table: &IndexMap<Name, V>,
) -> Result<Name, Halt>
    ensures read { FieldReads name_kind (is_new (keys_of table.now.entries)) cursor.old cursor.new result }
    ensures new { IfOk result (λ name. lookup (same name) table.now.entries ≡ None) }
{
    let mut ahead = cursor.ahead();
    let name = ahead.name()?;
    if table.contains_key(&name) {
        return Err(Halt::NoField);
    }
    *cursor = ahead;
    Ok(name)
}

/// The name of one of the users.
fn read_user_name<'a>(cursor: &mut Cursor<'a>, users: &Users) -> Result<Name, Halt>
    ensures { FieldReads name_kind (λ user. is_among user (keys_of users.now)) cursor.old cursor.new result }
{
    let mut ahead = cursor.ahead();
    let name = ahead.name()?;
    if !users.table().contains_key(&name) {
        return Err(Halt::NoField);
    }
    *cursor = ahead;
    Ok(name)
}

/// A name that no user, no address and no board has.
fn read_unused_name<'a>(
    cursor: &mut Cursor<'a>,
    users: &Users,
    addresses: &IndexMap<Name, Target>,
    boards: &Boards,
) -> Result<Name, Halt>
    ensures read { FieldReads name_kind (is_new ((keys_of users.now ++ keys_of addresses.now.entries) ++ keys_of boards.now)) cursor.old cursor.new result }
    ensures new { IfOk result (λ name. lookup (same name) boards.now ≡ None) }
{
    let mut ahead = cursor.ahead();
    let name = ahead.name()?;
    if is_taken(&name, users, addresses, boards) {
        return Err(Halt::NoField);
    }
    *cursor = ahead;
    Ok(name)
}

/// Whether a user, an address or a board has this name.
fn is_taken(name: &Name, users: &Users, addresses: &IndexMap<Name, Target>, boards: &Boards) -> bool
    ensures { result ≡ is_among name.now ((keys_of users.now ++ keys_of addresses.now.entries) ++ keys_of boards.now) }
{
    if users.table().contains_key(name) {
        return true;
    }
    if addresses.contains_key(name) {
        return true;
    }
    boards.table().contains_key(name)
}
