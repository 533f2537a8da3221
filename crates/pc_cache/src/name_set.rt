//! A set of names.

ghost use Rattle.std.specs.Prelude.{◌≡◌, ℕ, List, IfOk};
ghost use Rattle.pc_tables.specs.Table.{is_among};

use indexmap::IndexSet;
use pc_base::{Memory, Name};
use std::alloc::Global;
use std::marker::Model;

/// Names, each once, in which one is soon found.
#[derive(Drop)]
pub struct NameSet {
    names: IndexSet<Name>,
}

impl Model for NameSet {
    ghost use Rattle.std.specs.Prelude.{ℕ, List};

    ghost Value = { List (List ℕ) };

    ghost view = { λ s. s.names.keys };
}

impl NameSet {
    /// The set of these names.
    pub fn of(alloc: Global, names: &[Name]) -> Result<NameSet, Memory>
        ensures { IfOk result (λ set. (name : List ℕ) → is_among name set ≡ is_among name names.now) }
    {
        let mut set = IndexSet::new(alloc);
        for name in names {
            set.insert(*name)?;
        }
        Ok(NameSet { names: set })
    }

    /// Whether the name is in the set.
    pub fn has(&self, name: &Name) -> bool
        ensures { result ≡ is_among name.now self.now }
    {
        self.names.contains(name)
    }
}
