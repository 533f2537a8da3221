//! The update list of one client.

ghost use Rattle.std.specs.Prelude.{◌≡◌, ◌||◌, true, nat_eq, nat_lt, is_some, take, length, [], ◌∷◌, IfOk, OnOk, OnErr, IsOk};
ghost use Rattle.std.specs.Map.{lookup};
ghost use Rattle.pc_account_history.specs.Record.{stamp_at};
ghost use Rattle.pc_account_history.specs.Step.{without, touched};
ghost use Rattle.pc_mailbox.specs.UpdateList.{is_on, changes_of};

use crate::shown::Shown;
use lru::{Iter, LruCache};
use pc_account_history::Listed;
use pc_base::Memory;
use std::alloc::Global;
use std::marker::Model;

/// The most changes that one list can have; there are fewer uids.
const MOST_LISTED: usize = 4_294_967_295;

/// Uids with the numbers of the entries that last touched them, the longest untouched first.
#[derive(Drop)]
pub struct UpdateList {
    stamps: LruCache<u32, u64>,
}

impl Model for UpdateList {
    ghost use Rattle.std.specs.Prelude.{List};
    ghost use Rattle.pc_account_history.specs.declared.kept.Listed.{Listed};

    ghost Value = { List Listed };

    ghost use Rattle.pc_mailbox.specs.UpdateList.{changes_of, IsList};

    ghost view = { λ list. changes_of list.stamps.entries };

    ghost invariant = { λ list. IsList list.stamps };
}

impl UpdateList {
    /// A list without changes.
    pub fn new(alloc: Global) -> Result<UpdateList, Memory>
        ensures { IfOk result (λ list. list ≡ []) }
    {
        Ok(UpdateList {
            stamps: LruCache::unbounded(alloc)?,
        })
    }

    /// Puts the uid behind all others, with this stamp. After `Err` nothing has changed.
    pub fn touch(&mut self, at: u64, uid: u32) -> Result<(), Memory>
        ensures ok { OnOk result (self.new ≡ touched at (uid ∷ []) self.old) }
        ensures err { OnErr result (self.new ≡ self.old) }
        ensures spare { is_on self.old uid ≡ true → IsOk result }
    {
        let _no_uid_twice = self.stamps.len();
        if !has_room(&self.stamps, uid) {
            return Err(Memory);
        }
        self.stamps.put(uid, at)?;
        self.stamps.demote(&uid);
        Ok(())
    }

    /// Takes the uid off the list.
    pub fn take_off(&mut self, uid: u32)
        ensures { self.new ≡ without (uid ∷ []) self.old }
    {
        let _no_uid_twice = self.stamps.len();
        self.stamps.pop(&uid);
    }

    /// Takes off the changes behind the first so many.
    pub fn cut(&mut self, count: u32)
        ensures { self.new ≡ take count self.old }
    {
        while self.stamps.len() > count as usize {
            self.stamps.pop_lru();
        }
    }

    /// The stamp of the uid, where it is on the list.
    pub fn stamp(&self, uid: u32) -> Option<u64>
        ensures { result ≡ stamp_at uid self.now }
    {
        self.stamps.peek(&uid).copied()
    }

    /// How many changes there are.
    pub fn count(&self) -> u32
        ensures { result ≡ length self.now }
    {
        self.stamps.len() as u32
    }

    /// The uids with their stamps, in order.
    pub fn iter(&self) -> Iter<'_, u32, u64>
        ensures { changes_of result ≡ self.now }
    {
        self.stamps.iter()
    }

    /// The first so many changes.
    pub fn first(&self, alloc: Global, count: u32) -> Result<Shown, Memory>
        ensures { IfOk result (λ shown. shown ≡ take count self.now) }
    {
        let changes = first_changes(alloc, &self.stamps, count)?;
        Ok(Shown::of(changes))
    }
}

/// Whether the uid can be put on the list: it is on it, or there can be one more.
fn has_room(stamps: &LruCache<u32, u64>, uid: u32) -> bool
    ensures { result ≡ (nat_lt (length stamps.now.entries) MOST_LISTED || is_some (lookup (nat_eq uid) stamps.now.entries)) }
{
    stamps.len() < MOST_LISTED || stamps.contains(&uid)
}

fn first_changes(
    alloc: Global,
    stamps: &LruCache<u32, u64>,
    count: u32,
) -> Result<Vec<Listed>, Memory>
    ensures { IfOk result (λ changes. changes.items ≡ take count (changes_of stamps.now.entries)) }
{
    let mut changes = Vec::new(alloc);
    for (uid, stamp) in stamps.iter() {
        if changes.len() >= count as usize {
            return Ok(changes);
        }
        changes.push(Listed {
            uid: *uid,
            stamp: *stamp,
        })?;
    }
    Ok(changes)
}
