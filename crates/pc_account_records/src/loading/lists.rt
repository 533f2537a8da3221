//! The update lists in the record of an account, read.

ghost use Rattle.std.specs.Prelude.{◌≡◌, ◌+◌, ◌≤◌, ◌<◌, ◌++◌, [], ◌∷◌, false, min, length, nat_le, IfOk, OnOk, MatchResult};
ghost use Rattle.pc_tables.specs.Order.{Ordered};
ghost use Rattle.pc_account_history.specs.Legal.{HasOtherUid};
ghost use Rattle.pc_mailbox.specs.UpdateList.{listed_in};
ghost use Rattle.pc_fields.specs.Fields.{u32_kind, u64_kind, FieldReads};
ghost use Rattle.pc_fields.specs.Format.{Reads};
ghost use Rattle.pc_account_spelling.specs.RecordFormat.{above, is_listed, least_stamp, can_follow, changes_from, lists_from};
ghost use Rattle.pc_account_records.specs.ReadList.{HasRoom, is_next, is_stamp};

use crate::loading::LAST_NUMBER;
use indexmap::IndexMap;
use pc_account_history::Listed;
use pc_base::{Memory, Name};
use pc_fields::{Cursor, Halt, read_same_name};
use pc_mailbox::UpdateList;
use std::alloc::Global;

/// How many changes have uids above this one.
#[derive(Clone, Copy)]
struct Tally {
    uid: u32,
    above: u32,
}

/// The update lists of a mailbox with this highest uid, one for each client in order, with no more
/// changes than there is room.
pub(crate) fn read_lists(
    alloc: Global,
    cursor: &mut Cursor,
    clients: &IndexMap<Name, u64>,
    highest: u32,
    room: u32,
) -> Result<Vec<(Name, UpdateList)>, Halt>
    ensures read { MatchResult result
        (λ lists. Reads (lists_from highest room clients.now.entries []) cursor.old cursor.new (Ok lists.items))
        (λ halt. Reads (lists_from highest room clients.now.entries []) cursor.old cursor.new (Err halt)) }
    ensures each { IfOk result (λ lists. length lists.items ≡ length clients.now.entries) }
    ensures few { IfOk result (λ lists. listed_in lists.items ≤ room) }
{
    let mut lists = Vec::new(alloc);
    let mut left = room;
    for (client, birth) in clients.iter() {
        read_same_name(cursor, client)?;
        let count = cursor.u32(0, highest.min(left))?;
        let list = read_changes(alloc, cursor, highest, *birth, count)?;
        left -= list.count();
        put_list(&mut lists, *client, list)?;
    }
    Ok(lists)
}

fn put_list(
    lists: &mut Vec<(Name, UpdateList)>,
    client: Name,
    list: UpdateList,
) -> Result<(), Memory>
    ensures { OnOk result (lists.new.items ≡ lists.old.items ++ (client, list) ∷ []) }
{
    lists.push((client, list))?;
    Ok(())
}

/// So many changes of a client that was born with this number, in a mailbox with this highest uid.
fn read_changes(
    alloc: Global,
    cursor: &mut Cursor,
    highest: u32,
    birth: u64,
    count: u32,
) -> Result<UpdateList, Halt>
    requires { count ≤ highest }
    ensures read { MatchResult result
        (λ list. Reads (changes_from highest count birth 0 []) cursor.old cursor.new (Ok list))
        (λ halt. Reads (changes_from highest count birth 0 []) cursor.old cursor.new (Err halt)) }
    ensures counted { IfOk result (λ list. length list ≡ count) }
{
    let mut list = UpdateList::new(alloc)?;
    let mut last = Listed {
        uid: 0,
        stamp: birth,
    };
    let mut tally = Tally {
        uid: highest - count,
        above: 0,
    };
    for taken in 0..count {
        let left = count - (taken + 1);
        let uid = read_uid(cursor, &list, &mut tally, highest, left, last)?;
        let stamp = read_stamp(cursor, &list, &mut tally, highest, left, last, uid)?;
        last = Listed { uid, stamp };
        put_change(&mut list, last)?;
        tally.add(last);
    }
    Ok(list)
}

fn put_change(list: &mut UpdateList, change: Listed) -> Result<(), Memory>
    requires { is_listed change.uid list.old ≡ false }
    ensures { OnOk result (list.new ≡ list.old ++ change ∷ []) }
{
    list.touch(change.stamp, change.uid)
}

/// A uid that isn't listed, and that can stand behind the last change with so many changes left to
/// come.
fn read_uid(
    cursor: &mut Cursor,
    list: &UpdateList,
    tally: &mut Tally,
    highest: u32,
    left: u32,
    last: Listed,
) -> Result<u32, Halt>
    requires { HasRoom highest (left + 1) list.now tally.old }
    ensures read { FieldReads u32_kind (is_next highest left list.now last) cursor.old cursor.new result }
    ensures new { IfOk result (λ uid. (0 < uid) × (is_listed uid list.now ≡ false)) }
    ensures room { HasRoom highest (left + 1) list.now tally.new }
{
    let mut ahead = cursor.ahead();
    let uid = ahead.u32(1, highest)?;
    if list.stamp(uid).is_some() {
        return Err(Halt::NoField);
    }
    if !can_follow(list, tally, highest, left, uid, least_stamp_of(last, uid)) {
        return Err(Halt::NoField);
    }
    *cursor = ahead;
    Ok(uid)
}

/// A stamp with which the uid can stand behind the last change.
fn read_stamp(
    cursor: &mut Cursor,
    list: &UpdateList,
    tally: &mut Tally,
    highest: u32,
    left: u32,
    last: Listed,
    uid: u32,
) -> Result<u64, Halt>
    requires room { HasRoom highest (left + 1) list.now tally.old }
    requires positive { 0 < uid }
    requires new { is_listed uid list.now ≡ false }
    ensures read { FieldReads u64_kind (is_stamp highest left list.now last uid) cursor.old cursor.new result }
    ensures room { HasRoom highest (left + 1) list.now tally.new }
{
    let mut ahead = cursor.ahead();
    let stamp = ahead.u64(least_stamp_of(last, uid), LAST_NUMBER)?;
    if !can_follow(list, tally, highest, left, uid, stamp) {
        return Err(Halt::NoField);
    }
    *cursor = ahead;
    Ok(stamp)
}

/// The least stamp with which the uid can stand behind the last change.
fn least_stamp_of(last: Listed, uid: u32) -> u64
    ensures { result ≡ min (least_stamp last.stamp last.uid uid) u64.MAX }
{
    if last.uid < uid {
        last.stamp
    } else {
        last.stamp.saturating_add(1)
    }
}

/// Whether so many changes can come behind this one. Once the last stamp of all is reached, only
/// higher uids can follow, so that there have to be enough of them that aren't listed.
fn can_follow(
    list: &UpdateList,
    tally: &mut Tally,
    highest: u32,
    left: u32,
    uid: u32,
    stamp: u64,
) -> bool
    requires room { HasRoom highest (left + 1) list.now tally.old }
    requires positive { 0 < uid }
    requires new { is_listed uid list.now ≡ false }
    ensures can { result ≡ can_follow highest left list.now uid stamp }
    ensures room { HasRoom highest (left + 1) list.now tally.new }
{
    if stamp < LAST_NUMBER {
        return true;
    }
    if stamp > LAST_NUMBER {
        return false;
    }
    has_room(list, tally, highest, left, uid)
}

/// Whether there are so many uids above this one that aren't listed. The tally only goes up, and it
/// begins as far below the highest uid as there are changes: all calls for one list look up no more
/// uids than that.
fn has_room(list: &UpdateList, tally: &mut Tally, highest: u32, left: u32, uid: u32) -> bool
    requires room { HasRoom highest (left + 1) list.now tally.old }
    requires positive { 0 < uid }
    requires new { is_listed uid list.now ≡ false }
    ensures has { result ≡ nat_le (left + above uid list.now + uid) highest }
    ensures room { HasRoom highest (left + 1) list.now tally.new }
{
    let below = uid - 1;
    if below <= tally.uid {
        return true;
    }
    let more = tally.above - count_between(list, tally.uid, below);
    if u64::from(left) + u64::from(more) + u64::from(uid) > u64::from(highest) {
        return false;
    }
    *tally = Tally {
        uid: below,
        above: more,
    };
    true
}

/// How many changes have uids above the low one and up to the high one.
fn count_between(list: &UpdateList, low: u32, high: u32) -> u32
    requires distinct { Ordered HasOtherUid list.now }
    requires range { low ≤ high }
    ensures { result + above high list.now ≡ above low list.now }
{
    let mut count = 0;
    for passed in low..high {
        if list.stamp(passed + 1).is_some() {
            count += 1;
        }
    }
    count
}

impl Tally {
    /// Counts one change more.
    fn add(&mut self, change: Listed)
        requires { self.old.above < u32.MAX }
        ensures uid { self.new.uid ≡ self.old.uid }
        ensures above { self.new.above ≡ self.old.above + above self.old.uid (change ∷ []) }
    {
        if self.uid < change.uid {
            self.above += 1;
        }
    }
}
