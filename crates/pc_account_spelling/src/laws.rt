//! What holds of the bytes of entries. Each law is the contract of a function that does nothing.

ghost use Rattle.pc_fields.specs.Spelled.{IsRead, OneFault, OneValue, Spells};
ghost use Rattle.pc_account_spelling.specs.Spelled.{entries};
ghost use Rattle.pc_account_spelling.specs.Laws.{EntryLength, EntryIsShort};

/// An entry is read from its own fields and from no other, and at each field some entry goes on.
pub fn entries_are_spelled()
    ensures { Spells entries }
{}

/// No bytes are those of two entries.
pub fn one_entry()
    ensures { OneValue entries }
{}

/// The bytes of an entry have no fault.
pub fn entry_is_read()
    ensures { IsRead entries }
{}

/// Bytes have at most one first fault.
pub fn one_entry_fault()
    ensures { OneFault entries }
{}

/// How many bytes an entry has at least and at most.
pub fn entry_length()
    ensures { EntryLength }
{}

/// An entry of an account is short enough for a store.
pub fn entry_is_short()
    ensures { EntryIsShort }
{}
