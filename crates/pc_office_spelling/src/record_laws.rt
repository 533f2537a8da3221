//! What holds of the bytes of records. Each law is the contract of a function that does nothing.

ghost use Rattle.pc_fields.specs.Spelled.{IsRead, OneFault, OneValue, Spells};
ghost use Rattle.pc_office_spelling.specs.Spelled.{records};
ghost use Rattle.pc_office_spelling.specs.RecordLaws.{RecordIsShort};

/// A record is read from its own fields and from no other, and at each field some record goes on.
pub fn records_are_spelled()
    ensures { Spells records }
{}

/// No bytes are those of two records.
pub fn one_record()
    ensures { OneValue records }
{}

/// The bytes of a record have no fault.
pub fn record_is_read()
    ensures { IsRead records }
{}

/// Bytes have at most one first fault.
pub fn one_record_fault()
    ensures { OneFault records }
{}

/// A record is short enough for the base of a store.
pub fn record_is_short()
    ensures { RecordIsShort }
{}
