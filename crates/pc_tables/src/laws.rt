//! Laws of names. Each law is the contract of a function that does nothing.

ghost use Rattle.pc_tables.specs.Laws.{SameIsEqual, SameIsReflexive, SameIsSymmetric};

/// A name is the same as itself.
pub fn same_is_reflexive()
    ensures { SameIsReflexive }
{}

/// It doesn't matter which of two names is asked about the other.
pub fn same_is_symmetric()
    ensures { SameIsSymmetric }
{}

/// Names that are the same are equal.
pub fn same_is_equal()
    ensures { SameIsEqual }
{}
