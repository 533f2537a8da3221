//! A small record, with what its bytes must be. The law is the contract of a function that does nothing.

ghost use Rattle.pc_office_spelling.specs.Samples.{SmallRecord};

/// The bytes of a record with users, addresses, a board and a mail that waits.
pub fn small_record()
    ensures { SmallRecord }
{}
