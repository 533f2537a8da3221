//! Whether something comes twice. No memory is taken: many items are put in order on the stack.

ghost use Rattle.std.specs.Prelude.{◌≡◌, ◌≤◌, ◌==◌, nat_lt, length, map};
ghost use Rattle.std.specs.List.{list_any};
ghost use Rattle.pc_message.specs.declared.descriptor.Change.{Change as Said};
ghost use Rattle.pc_tables.specs.Table.{same};
ghost use Rattle.pc_tables.specs.Order.{rises_from};
ghost use Rattle.pc_cache_history.specs.Entry.{uid_of as named_by};
ghost use Rattle.pc_cache_history.specs.Allowed.{are_different};
ghost use Rattle.pc_cache.specs.Rising.{is_before as before, is_before_at, name_at as named_at, rise};

use arrayvec::ArrayVec;
use pc_base::Name;
use pc_cache_history::{MOST_NAMES, MOST_TAKEN};
use pc_message::Change;
use std::cmp::Ordering;

/// As many items are soon compared with each other.
const FEW: usize = 64;

/// Whether no uid comes twice.
pub fn uids_differ(changes: &[Change]) -> bool
    requires { length changes.now ≤ MOST_TAKEN }
    ensures { result ≡ are_different ◌==◌ (map named_by changes.now) }
{
    if uids_rise(changes) {
        return true;
    }
    if changes.len() <= FEW {
        return are_apart(changes);
    }
    differ_in_order(changes)
}

/// Whether no name comes twice.
pub fn names_differ(names: &[Name]) -> bool
    requires { length names.now ≤ MOST_NAMES }
    ensures { result ≡ are_different same names.now }
{
    if names_rise(names) {
        return true;
    }
    if names.len() <= FEW {
        return stand_apart(names);
    }
    stand_apart_in_order(names)
}

/// Whether the uids rise, from 1 on.
fn uids_rise(changes: &[Change]) -> bool
    ensures { result ≡ rises_from 0 (map named_by changes.now) }
{
    let mut last = 0;
    for change in changes {
        let uid = uid_of(change);
        if uid <= last {
            return false;
        }
        last = uid;
    }
    true
}

/// Whether no uid comes twice, in time by the square of the number of changes.
fn are_apart(changes: &[Change]) -> bool
    ensures { result ≡ are_different ◌==◌ (map named_by changes.now) }
{
    let mut rest = changes;
    while let [change, others @ ..] = rest {
        if is_named(others, uid_of(change)) {
            return false;
        }
        rest = others;
    }
    true
}

/// Whether a change names the uid.
fn is_named(changes: &[Change], uid: u32) -> bool
    ensures { result ≡ list_any (λ (change : Said). uid == named_by change) changes.now }
{
    changes.iter().any(|change| uid == uid_of(change))
}

/// Whether no uid comes twice, by the order of the uids.
fn differ_in_order(changes: &[Change]) -> bool
    requires { length changes.now ≤ MOST_TAKEN }
    ensures { result ≡ are_different ◌==◌ (map named_by changes.now) }
{
    let mut uids: ArrayVec<u32, MOST_TAKEN> = ArrayVec::new();
    for change in changes {
        uids.push(uid_of(change));
    }
    uids.sort_unstable();
    numbers_rise(uids.as_slice())
}

/// Whether the numbers rise.
fn numbers_rise(numbers: &[u32]) -> bool
    ensures { result ≡ rise nat_lt numbers.now }
{
    let [first, others @ ..] = numbers else {
        return true;
    };
    let mut last = *first;
    for number in others {
        if *number <= last {
            return false;
        }
        last = *number;
    }
    true
}

/// The uid that a change names.
pub fn uid_of(change: &Change) -> u32
    ensures { result ≡ named_by change.now }
{
    match change {
        Change::Present(descriptor) => descriptor.uid,
        Change::Expunged(uid) => *uid,
    }
}

/// Whether the names rise, byte by byte.
fn names_rise(names: &[Name]) -> bool
    ensures { result ≡ rise before names.now }
{
    let [first, others @ ..] = names else {
        return true;
    };
    let mut last = *first;
    for name in others {
        if !is_before(&last, name) {
            return false;
        }
        last = *name;
    }
    true
}

/// Whether no name comes twice, in time by the square of their number.
fn stand_apart(names: &[Name]) -> bool
    ensures { result ≡ are_different same names.now }
{
    let mut rest = names;
    while let [name, others @ ..] = rest {
        if others.contains(name) {
            return false;
        }
        rest = others;
    }
    true
}

/// Whether no name comes twice, by the order of the names. Only their places are put in order.
fn stand_apart_in_order(names: &[Name]) -> bool
    requires { length names.now ≤ MOST_NAMES }
    ensures { result ≡ are_different same names.now }
{
    let [any, ..] = names else {
        return true;
    };
    let mut places: ArrayVec<u16, MOST_NAMES> = ArrayVec::new();
    for place in 0..names.len() {
        places.push(place as u16);
    }
    places.sort_unstable_by_key(|place| name_at(names, *place, any));
    places_rise(names, places.as_slice(), any)
}

/// Whether the names at these places rise, byte by byte.
fn places_rise(names: &[Name], places: &[u16], any: &Name) -> bool
    ensures { result ≡ rise (is_before_at names.now any.now) places.now }
{
    let [first, others @ ..] = places else {
        return true;
    };
    let mut last = *first;
    for place in others {
        if !is_before(&name_at(names, last, any), &name_at(names, *place, any)) {
            return false;
        }
        last = *place;
    }
    true
}

/// The name at this place, or any where there is none.
fn name_at(names: &[Name], place: u16, any: &Name) -> Name
    ensures { result ≡ named_at names.now any.now place }
{
    match names.get(place as usize) {
        Some(name) => *name,
        None => *any,
    }
}

/// Whether the first name is below the other, byte by byte.
fn is_before(name: &Name, other: &Name) -> bool
    ensures { result ≡ before name.now other.now }
{
    match name.cmp(other) {
        Ordering::Less => true,
        Ordering::Equal => false,
        Ordering::Greater => false,
    }
}
