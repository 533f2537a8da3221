//! The users of the office.

ghost use Rattle.std.specs.Prelude.{◌≡◌, ℕ, suc, ◌<◌, List, ◌++◌, [], ◌∷◌, None, false, is_some, map, length, slice_get, OnOk};
ghost use Rattle.std.specs.Option.{option_map_or};
ghost use Rattle.std.specs.Map.{lookup, set_value, keys_of};
ghost use Rattle.pc_tables.specs.Table.{same};
ghost use Rattle.pc_office_history.specs.Record.{target_of};
ghost use Rattle.pc_office_holdings.specs.declared.users.Standing.{Standing};
ghost use Rattle.pc_tables.specs.Fronts.{front_mapped};
ghost use Rattle.pc_office_holdings.specs.Step.{new_standing, with_mail, awaited};

use indexmap::IndexMap;
use pc_base::{Memory, Name, Names};
use pc_office_history::Targets;
use pc_tables::tables;
use std::alloc::Global;
use std::marker::Model;

/// What is noted and counted of a user. The sums have 64 bits, and wrap.
#[derive(Clone, Copy)]
pub struct Standing {
    /// The number up to which the user is noted to have pulled.
    pub noted: u64,
    /// How many mails wait for the user.
    pub mails: u64,
    /// What these mails count for, each its size and 256 bytes.
    pub weight: u64,
}

impl Standing {
    /// Of a new user.
    pub fn new() -> Standing
        ensures { result ≡ new_standing }
    {
        Standing {
            noted: 0,
            mails: 0,
            weight: 0,
        }
    }

    /// Counts one mail more, of this weight.
    pub fn add(&mut self, weight: u32)
        ensures { self.new ≡ with_mail weight self.old }
    {
        self.mails = self.mails.wrapping_add(1);
        self.weight = self.weight.wrapping_add(weight as u64);
    }
}

/// Users in order of making, each with its standing.
#[derive(Drop)]
pub struct Users {
    names: Names,
    table: IndexMap<Name, Standing>,
}

impl Model for Users {
    ghost use Rattle.std.specs.Prelude.{◌≡◌, ℕ, List};
    ghost use Rattle.std.specs.Map.{keys_of};
    ghost use Rattle.pc_office_holdings.specs.declared.users.Standing.{Standing};

    ghost Value = { List (List ℕ × Standing) };

    ghost view = { λ u. u.table.entries };

    ghost invariant = { λ u. u.names ≡ keys_of u.table.entries };
}

impl Users {
    /// No users.
    pub fn new(alloc: Global) -> Users
        ensures { result ≡ [] }
    {
        Users {
            names: Names::new(alloc),
            table: IndexMap::new(alloc),
        }
    }

    /// Their names.
    pub fn names(&self) -> &Names
        ensures { result.now ≡ keys_of self.now }
    {
        &self.names
    }

    /// The users with their standings, in order.
    pub fn table(&self) -> &IndexMap<Name, Standing>
        ensures { result.now.entries ≡ self.now }
    {
        &self.table
    }

    /// How many there are.
    pub fn count(&self) -> usize
        ensures { result ≡ length self.now }
    {
        self.table.len()
    }

    /// The standing of a user.
    pub fn get(&self, user: &Name) -> Option<Standing>
        ensures { result ≡ lookup (same user.now) self.now }
    {
        self.table.get(user).copied()
    }

    /// Puts a new user that isn't there behind the others. After `Err` they aren't used again.
    pub fn add(&mut self, alloc: Global, user: Name) -> Result<(), Memory>
        requires { lookup (same user) self.old ≡ None }
        ensures { OnOk result (self.new ≡ self.old ++ (user, new_standing) ∷ []) }
    {
        self.put(alloc, user, Standing::new())
    }

    /// Puts a user that isn't there behind the others, with this standing. After `Err` they aren't
    /// used again.
    pub fn put(&mut self, alloc: Global, user: Name, standing: Standing) -> Result<(), Memory>
        requires { lookup (same user) self.old ≡ None }
        ensures { OnOk result (self.new ≡ self.old ++ (user, standing) ∷ []) }
    {
        let Ok(()) = tables::put(&mut self.table, user, standing) else {
            return Err(Memory);
        };
        let Ok(()) = self.names.push(user) else {
            *self = Users::new(alloc);
            return Err(Memory);
        };
        Ok(())
    }

    /// Sets the standing of a user.
    pub fn set(&mut self, user: &Name, standing: Standing)
        ensures { self.new ≡ set_value (same user.now) self.old standing }
    {
        tables::set(&mut self.table, user, standing);
    }

    /// Counts a mail of this weight for each user that is among the targets.
    pub fn await_mail(&mut self, targets: &Targets, weight: u32)
        ensures { self.new ≡ map (awaited targets.now weight) self.old }
    {
        for index in 0..self.table.len() {
            self.await_at(index, targets, weight);
        }
    }

    /// Counts a mail for the user at this place, where it is among the targets.
    fn await_at(&mut self, index: usize, targets: &Targets, weight: u32)
        requires { index < length self.old }
        ensures changed { let f = awaited targets.now weight in
            (all : List (List ℕ × Standing)) → self.old ≡ front_mapped f index all → self.new ≡ front_mapped f (suc index) all }
        ensures count { length self.new ≡ length self.old }
    {
        if !self.is_target(index, targets) {
            return;
        }
        if let Some(standing) = self.table.get_index_mut(index) {
            standing.add(weight);
        }
    }

    /// Whether the user at this place is among the targets.
    fn is_target(&self, index: usize, targets: &Targets) -> bool
        ensures { result ≡ option_map_or (λ user. is_some (target_of user.0 targets.now)) (slice_get self.now index) false }
    {
        match self.names.as_slice().get(index) {
            Some(name) => targets.of(name).is_some(),
            None => false,
        }
    }
}
