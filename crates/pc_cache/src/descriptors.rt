//! The descriptors of a mailbox.

ghost use Rattle.std.specs.Prelude.{◌≡◌, ◌<◌, ◌≤◌, ◌==◌, ◌++◌, [], ◌∷◌, not, true, false, nat_eq, length, map, take, drop, slice_get, is_some, IfOk, OnOk, OnErr};
ghost use Rattle.std.specs.List.{filter, filter_map, cons_option};
ghost use Rattle.std.specs.Option.{option_map_or};
ghost use Rattle.pc_message.specs.declared.descriptor.Descriptor.{Descriptor as Described};
ghost use Rattle.pc_cache_history.specs.Record.{descriptor_at};
ghost use Rattle.pc_cache_history.specs.Effect.{with_descriptor, other_descriptors, with_change, with_changes};
ghost use Rattle.pc_cache_history.specs.Entry.{uid_of as named_by, shown_by};
ghost use Rattle.pc_cache_history.specs.Allowed.{are_different};
ghost use Rattle.pc_cache_history.specs.Legal.{AreRising};
ghost use Rattle.pc_cache.specs.Places.{is_below, AreNamed, unnamed};

use crate::differing::uid_of;
use indexmap::IndexSet;
use pc_base::Memory;
use pc_message::{Change, Descriptor};
use std::alloc::Global;
use std::marker::Model;
use std::mem;

/// As many changes are taken one after the other.
const FEW: usize = 16;

/// Descriptors by rising uid.
#[derive(Drop)]
pub struct Descriptors {
    descriptors: Vec<Descriptor>,
}

impl Model for Descriptors {
    ghost use Rattle.std.specs.Prelude.{List};
    ghost use Rattle.pc_message.specs.declared.descriptor.Descriptor.{Descriptor};
    ghost use Rattle.pc_cache_history.specs.Legal.{AreRising};

    ghost Value = { List Descriptor };

    ghost view = { λ d. d.descriptors.items };

    ghost invariant = { λ d. AreRising d.descriptors.items };
}

impl Descriptors {
    /// No descriptors.
    pub fn new(alloc: Global) -> Descriptors
        ensures { result ≡ [] }
    {
        Descriptors {
            descriptors: Vec::new(alloc),
        }
    }

    /// The descriptors, in order.
    pub fn as_slice(&self) -> &[Descriptor]
        ensures value { result.now ≡ self.now }
        ensures rising { AreRising self.now }
    {
        self.descriptors.as_slice()
    }

    /// Whether there is one with this uid.
    pub fn has(&self, uid: u32) -> bool
        ensures { result ≡ is_some (descriptor_at uid self.now) }
    {
        let place = count_below(&self.descriptors, uid);
        is_at(&self.descriptors, place, uid)
    }

    /// Puts a descriptor in its place, instead of one with its uid. After `Err` nothing has changed.
    pub fn put(&mut self, new: Descriptor) -> Result<(), Memory>
        ensures ok { OnOk result (self.new ≡ with_descriptor new self.old) }
        ensures err { OnErr result (self.new ≡ self.old) }
    {
        let place = count_below(&self.descriptors, new.uid);
        if is_at(&self.descriptors, place, new.uid) {
            self.descriptors[place] = new;
            return Ok(());
        }
        self.descriptors.insert(place, new)?;
        Ok(())
    }

    /// Takes away the one with this uid.
    pub fn remove(&mut self, uid: u32)
        ensures { self.new ≡ other_descriptors uid self.old }
    {
        let place = count_below(&self.descriptors, uid);
        if is_at(&self.descriptors, place, uid) {
            self.descriptors.remove(place);
        }
    }

    /// Takes a change. After `Err` nothing has changed.
    pub fn take(&mut self, alloc: Global, change: &Change) -> Result<(), Memory>
        ensures ok { OnOk result (self.new ≡ with_change change.now self.old) }
        ensures err { OnErr result (self.new ≡ self.old) }
    {
        match change {
            Change::Present(descriptor) => self.put(copy_of(alloc, descriptor)?),
            Change::Expunged(uid) => {
                self.remove(*uid);
                Ok(())
            }
        }
    }

    /// Takes changes of different uids. After `Err` it isn't used again.
    pub fn take_all(&mut self, alloc: Global, changes: &[Change]) -> Result<(), Memory>
        requires { are_different ◌==◌ (map named_by changes.now) ≡ true }
        ensures { OnOk result (self.new ≡ with_changes changes.now self.old) }
    {
        if changes.len() <= FEW {
            return self.take_each(alloc, changes);
        }
        self.merge(alloc, changes)
    }

    /// Takes changes, one after the other. After `Err` some of them are taken.
    fn take_each(&mut self, alloc: Global, changes: &[Change]) -> Result<(), Memory>
        ensures { OnOk result (self.new ≡ with_changes changes.now self.old) }
    {
        for change in changes {
            self.take(alloc, change)?;
        }
        Ok(())
    }

    /// Takes changes of different uids at once: what they show is merged with what they don't name.
    /// After `Err` there is nothing.
    fn merge(&mut self, alloc: Global, changes: &[Change]) -> Result<(), Memory>
        requires { are_different ◌==◌ (map named_by changes.now) ≡ true }
        ensures { OnOk result (self.new ≡ with_changes changes.now self.old) }
    {
        let mut all = mem::replace(&mut self.descriptors, Vec::new(alloc));
        take_away(alloc, &mut all, changes)?;
        put_behind(alloc, &mut all, changes)?;
        all.sort_by_key(|descriptor| descriptor.uid)?;
        self.descriptors = all;
        Ok(())
    }
}

/// Takes away in one pass those that a change names.
fn take_away(alloc: Global, all: &mut Vec<Descriptor>, changes: &[Change]) -> Result<(), Memory>
    ensures { OnOk result (all.new.items ≡ unnamed changes.now all.old.items) }
{
    let named = named_in(alloc, changes)?;
    all.retain(|descriptor| !named.contains(&descriptor.uid));
    Ok(())
}

/// Puts copies of those that the changes show behind the others.
fn put_behind(alloc: Global, all: &mut Vec<Descriptor>, changes: &[Change]) -> Result<(), Memory>
    ensures { OnOk result (all.new.items ≡ all.old.items ++ filter_map shown_by changes.now) }
{
    for change in changes {
        put_shown(alloc, all, change)?;
    }
    Ok(())
}

/// Puts a copy of what the change shows behind the others, where it shows something.
fn put_shown(alloc: Global, all: &mut Vec<Descriptor>, change: &Change) -> Result<(), Memory>
    ensures { OnOk result (all.new.items ≡ all.old.items ++ cons_option (shown_by change.now) []) }
{
    match change {
        Change::Present(descriptor) => {
            all.push(copy_of(alloc, descriptor)?)?;
            Ok(())
        }
        Change::Expunged(_) => Ok(()),
    }
}

/// The uids that the changes name.
fn named_in(alloc: Global, changes: &[Change]) -> Result<IndexSet<u32>, Memory>
    ensures { IfOk result (λ named. AreNamed named.keys changes.now) }
{
    let mut named = IndexSet::new(alloc);
    for change in changes {
        named.insert(uid_of(change))?;
    }
    Ok(named)
}

/// Another descriptor that says the same.
pub fn copy_of(alloc: Global, descriptor: &Descriptor) -> Result<Descriptor, Memory>
    ensures { IfOk result (λ copy. copy ≡ descriptor.now) }
{
    Ok(Descriptor {
        uid: descriptor.uid,
        flags: descriptor.flags,
        bytes: descriptor.bytes,
        lines: descriptor.lines,
        date: descriptor.date.copy(alloc)?,
        from: descriptor.from.copy(alloc)?,
        to: descriptor.to.copy(alloc)?,
        subject: descriptor.subject.copy(alloc)?,
    })
}

/// How many descriptors have a uid below this one. They stand in front, since uids rise.
fn count_below(descriptors: &[Descriptor], uid: u32) -> usize
    requires { AreRising descriptors.now }
    ensures within { result ≤ length descriptors.now }
    ensures front { take result descriptors.now ≡ filter (is_below uid) descriptors.now }
    ensures back { drop result descriptors.now ≡ filter (λ (descriptor : Described). not (is_below uid descriptor)) descriptors.now }
{
    descriptors.partition_point(|descriptor| descriptor.uid < uid)
}

/// Whether the descriptor at this place has this uid.
fn is_at(descriptors: &[Descriptor], place: usize, uid: u32) -> bool
    ensures { result ≡ option_map_or (λ (descriptor : Described). nat_eq descriptor.uid uid) (slice_get descriptors.now place) false }
{
    match descriptors.get(place) {
        Some(descriptor) => descriptor.uid == uid,
        None => false,
    }
}
