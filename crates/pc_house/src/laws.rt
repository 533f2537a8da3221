//! What callers rely on of every user and of every store that was folded. Each law is the contract of a function that does nothing.

ghost use Rattle.pc_house.specs.Enrolling.{FirstEntries};
ghost use Rattle.pc_house.specs.Folded.{FoldedHasRecord};

use pc_disk::Disk;

/// The first entries of a new account are the user's password and the inbox.
pub fn first_entries()
    ensures { FirstEntries }
{}

/// A store that was folded has the record of its history as its base, whatever disk it lies on.
pub fn folded_has_record<D: Disk + Drop>()
    ensures { FoldedHasRecord D }
{}
