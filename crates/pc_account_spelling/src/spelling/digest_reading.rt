//! The digest of a record, read.

ghost use Rattle.pc_fields.specs.Format.{Reads};
ghost use Rattle.pc_account_spelling.specs.RecordFormat.{digest_format};

use pc_fields::{Cursor, Halt};

/// The digest of the password, where there is one.
pub fn read_digest(cursor: &mut Cursor) -> Result<Option<[u8; 32]>, Halt>
    ensures { Reads digest_format cursor.old cursor.new result }
{
    if !cursor.bool()? {
        return Ok(None);
    }
    let digest = cursor.digest()?;
    Ok(Some(digest))
}
