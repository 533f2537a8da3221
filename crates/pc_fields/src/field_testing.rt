//! Fields that are read where they pass a test.

ghost use Rattle.pc_tables.specs.Table.{same};
ghost use Rattle.pc_fields.specs.Fields.{name_kind, FieldReads};

use crate::cursor::{Cursor, Halt};
use pc_base::Name;

/// The name, where it is this one.
pub fn read_same_name<'a>(cursor: &mut Cursor<'a>, name: &Name) -> Result<Name, Halt>
    ensures { FieldReads name_kind (same name.now) cursor.old cursor.new result }
{
    let mut ahead = cursor.ahead();
    let read = ahead.name()?;
    if *name != read {
        return Err(Halt::NoField);
    }
    *cursor = ahead;
    Ok(read)
}
