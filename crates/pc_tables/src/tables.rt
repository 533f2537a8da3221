//! Tables of what stands under names, in an order.

ghost use Rattle.std.specs.Prelude.{◌≡◌, ◌++◌, [], ◌∷◌, None, OnOk, OnErr};
ghost use Rattle.std.specs.Map.{lookup, remove_entry, set_value};
ghost use Rattle.pc_tables.specs.Table.{same, others};

use indexmap::IndexMap;
use pc_base::{Memory, Name};

/// Puts something under a name that isn't there, behind the others. After `Err` nothing has changed.
pub fn put<V: Drop>(table: &mut IndexMap<Name, V>, name: Name, value: V) -> Result<(), Memory>
    requires { lookup (same name) table.old.entries ≡ None }
    ensures ok { OnOk result (table.new.entries ≡ table.old.entries ++ (name, value) ∷ []) }
    ensures err { OnErr result (table.new.entries ≡ table.old.entries) }
{
    table.insert(name, value)?;
    Ok(())
}

/// Takes what stands under a name. The others keep their order.
pub fn take<V: Drop>(table: &mut IndexMap<Name, V>, name: &Name) -> Option<V>
    ensures value { result ≡ lookup (same name.now) table.old.entries }
    ensures first { table.new.entries ≡ remove_entry (same name.now) table.old.entries }
    ensures others { table.new.entries ≡ others name.now table.old.entries }
{
    let _no_name_twice = table.len();
    table.shift_remove(name)
}

/// Sets what stands under a name, where it is there.
pub fn set<V: Drop>(table: &mut IndexMap<Name, V>, name: &Name, value: V)
    ensures { table.new.entries ≡ set_value (same name.now) table.old.entries value }
{
    if let Some(place) = table.get_mut(name) {
        *place = value;
    }
}
