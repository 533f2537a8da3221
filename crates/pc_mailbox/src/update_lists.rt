//! The update lists of all clients of a mailbox, in the clients' order.

ghost use Rattle.std.specs.Prelude.{◌≡◌, ◌≤◌, true, [], length, unwrap_or, option_map, option_copied, position, OnOk, OnErr, IfOk, IsOk};
ghost use Rattle.std.specs.Vec.{vec_len, vec_capacity};
ghost use Rattle.std.specs.Map.{lookup, set_value};
ghost use Rattle.pc_tables.specs.Table.{same, map_values, others};
ghost use Rattle.pc_account_history.specs.Step.{without, touched, stamped};
ghost use Rattle.pc_mailbox.specs.UpdateList.{is_on, are_on, all_list, takers_of, listed_in, Rise, Grown, back_mapped, touched_entry};

use crate::update_list::UpdateList;
use pc_base::{Memory, Name};
use std::alloc::Global;

/// Touches these uids, which rise, for every client. After `Err` nothing has changed.
pub fn touch_for_all(lists: &mut [(Name, UpdateList)], at: u64, uids: &[u32]) -> Result<(), Memory>
    requires { Rise uids.now }
    ensures ok { OnOk result (lists.new ≡ map_values (touched at uids.now) lists.old) }
    ensures err { OnErr result (lists.new ≡ lists.old) }
    ensures spare { all_list uids.now lists.old ≡ true → IsOk result }
{
    touch_from(lists, 0, at, uids)
}

/// Touches these uids on the lists from this place on. Each list is made longer before any is
/// touched, so that nothing is touched where memory is wanted.
fn touch_from(
    lists: &mut [(Name, UpdateList)],
    place: usize,
    at: u64,
    uids: &[u32],
) -> Result<(), Memory>
    requires rise { Rise uids.now }
    requires place { place ≤ length lists.old }
    ensures ok { OnOk result (lists.new ≡ back_mapped (touched_entry at uids.now) place lists.old) }
    ensures err { OnErr result (lists.new ≡ lists.old) }
    ensures spare { all_list uids.now lists.old ≡ true → IsOk result }
{
    if place >= lists.len() {
        return Ok(());
    }
    let count = lists[place].1.count();
    if admit(&mut lists[place].1, at, uids).is_err() {
        lists[place].1.cut(count);
        return Err(Memory);
    }
    if touch_from(lists, place + 1, at, uids).is_err() {
        lists[place].1.cut(count);
        return Err(Memory);
    }
    touch_all(&mut lists[place].1, at, uids)?;
    Ok(())
}

/// Puts those of the uids on the list that aren't there, behind the others.
fn admit(list: &mut UpdateList, at: u64, uids: &[u32]) -> Result<(), Memory>
    ensures grown { Grown uids.now list.old list.new }
    ensures ok { OnOk result (are_on uids.now list.new ≡ true) }
    ensures spare { are_on uids.now list.old ≡ true → IsOk result }
{
    for uid in uids {
        if list.stamp(*uid).is_some() {
            continue;
        }
        list.touch(at, *uid)?;
    }
    Ok(())
}

/// Touches these uids, which rise, for one client, where it has a list. After `Err` nothing has
/// changed.
pub fn touch_for(
    lists: &mut [(Name, UpdateList)],
    at: u64,
    client: &Name,
    uids: &[u32],
) -> Result<(), Memory>
    requires { Rise uids.now }
    ensures ok { let list = unwrap_or (lookup (same client.now) lists.old) [] in
        OnOk result (lists.new ≡ set_value (same client.now) lists.old (touched at uids.now list)) }
    ensures err { OnErr result (lists.new ≡ lists.old) }
{
    let Some(index) = index_of(lists, client) else {
        return Ok(());
    };
    touch_whole(&mut lists[index].1, at, uids)?;
    Ok(())
}

/// Touches these uids, which rise. After `Err` nothing has changed.
fn touch_whole(list: &mut UpdateList, at: u64, uids: &[u32]) -> Result<(), Memory>
    requires { Rise uids.now }
    ensures ok { OnOk result (list.new ≡ touched at uids.now list.old) }
    ensures err { OnErr result (list.new ≡ list.old) }
{
    let count = list.count();
    if admit(list, at, uids).is_err() {
        list.cut(count);
        return Err(Memory);
    }
    touch_all(list, at, uids)?;
    Ok(())
}

/// Takes these uids off the list of a client, where it has one.
pub fn forget(lists: &mut [(Name, UpdateList)], client: &Name, uids: &[u32])
    ensures { let list = unwrap_or (lookup (same client.now) lists.old) [] in
        lists.new ≡ set_value (same client.now) lists.old (without uids.now list) }
{
    if let Some(index) = index_of(lists, client) {
        take_all_off(&mut lists[index].1, uids);
    }
}

/// The list of a client, where it has one.
pub fn list_of<'a>(lists: &'a [(Name, UpdateList)], client: &Name) -> Option<&'a UpdateList>
    ensures { option_copied result ≡ lookup (same client.now) lists.now }
{
    let index = index_of(lists, client)?;
    Some(&lists[index].1)
}

/// Touches these uids, which rise.
pub fn touch_all(list: &mut UpdateList, at: u64, uids: &[u32]) -> Result<(), Memory>
    requires { Rise uids.now }
    ensures ok { OnOk result (list.new ≡ touched at uids.now list.old) }
    ensures spare { are_on uids.now list.old ≡ true → IsOk result }
{
    for uid in uids {
        list.touch(at, *uid)?;
    }
    Ok(())
}

fn take_all_off(list: &mut UpdateList, uids: &[u32])
    ensures { list.new ≡ without uids.now list.old }
{
    for uid in uids {
        list.take_off(*uid);
    }
}

fn index_of(lists: &[(Name, UpdateList)], client: &Name) -> Option<usize>
    ensures { result ≡ position (λ entry. same client.now entry.0) lists.now }
{
    lists.iter().position(|entry| *client == entry.0)
}

/// How many clients have the uid on their lists.
pub fn count_takers(lists: &[(Name, UpdateList)], uid: u32) -> usize
    ensures takers { result ≡ takers_of uid lists.now }
    ensures bound { result ≤ length lists.now }
{
    lists
        .iter()
        .filter(|entry| entry.1.stamp(uid).is_some())
        .count()
}

/// How many changes are on all lists.
pub fn count_listed(lists: &[(Name, UpdateList)]) -> u64
    requires { length lists.now ≤ 4294967295 }
    ensures { result ≡ listed_in lists.now }
{
    let mut listed = 0;
    for entry in lists {
        listed += entry.1.count() as u64;
    }
    listed
}

/// A list of these uids, which rise, touched by the entry with this number.
pub fn list_with(alloc: Global, at: u64, uids: &[u32]) -> Result<UpdateList, Memory>
    requires { Rise uids.now }
    ensures { IfOk result (λ list. list ≡ stamped at uids.now) }
{
    let mut list = UpdateList::new(alloc)?;
    touch_all(&mut list, at, uids)?;
    Ok(list)
}

/// Takes the list of a client away.
pub fn remove(lists: &mut Vec<(Name, UpdateList)>, client: &Name)
    ensures others { lists.new.items ≡ others client.now lists.old.items }
    ensures bound { length lists.new.items ≤ length lists.old.items }
    ensures len { vec_len lists.new ≤ vec_len lists.old }
    ensures capacity { vec_capacity lists.new ≡ vec_capacity lists.old }
{
    lists.retain(|entry| *client != entry.0);
}
