//! Small histories, with what their answers must be. Each law is the contract of a function that does nothing.

ghost use Rattle.pc_cache_history.specs.Samples.{SyncedAtOnce, TwoTaken, FlagQueued, FlagAnswered, LastOneHolds, BegunAnew, UidsRise, GoneAndThere, LeftOut, EmptiedStays, EmptyBases, OnlyWhereSynced, TookIsWritten, TookIsTooLong, NothingTwice, NoSuchMessage, AnsweredOnce, QueueIsFull, SamplesAreLegal, ResettingBase, BehindBase, QueueIsTooLong, NoBases};

/// A new cache of which everything is listed anew, without a `Begin`.
pub fn synced_at_once()
    ensures { SyncedAtOnce }
{}

/// Two messages are taken.
pub fn two_taken()
    ensures { TwoTaken }
{}

/// A flag is queued for one of them.
pub fn flag_queued()
    ensures { FlagQueued }
{}

/// The flag is answered.
pub fn flag_answered()
    ensures { FlagAnswered }
{}

/// Of several changes of one flag the last one holds.
pub fn last_one_holds()
    ensures { LastOneHolds }
{}

/// A cache that begins anew keeps its queue and goes on with its numbers.
pub fn begun_anew()
    ensures { BegunAnew }
{}

/// Descriptors are told by rising uid.
pub fn uids_rise()
    ensures { UidsRise }
{}

/// A message is gone while a change of it waits.
pub fn gone_and_there()
    ensures { GoneAndThere }
{}

/// A mailbox is left out, and taken again.
pub fn left_out()
    ensures { LeftOut }
{}

/// A mailbox without messages stays.
pub fn emptied_stays()
    ensures { EmptiedStays }
{}

/// Bases that are empty, and one that isn't.
pub fn empty_bases()
    ensures { EmptyBases }
{}

/// What is allowed before the repository lists everything anew, and after.
pub fn only_where_synced()
    ensures { OnlyWhereSynced }
{}

/// In how many bytes changes are written.
pub fn took_is_written()
    ensures { TookIsWritten }
{}

/// Changes that are too long to be taken at once.
pub fn took_is_too_long()
    ensures { TookIsTooLong }
{}

/// Changes and names that can't be taken.
pub fn nothing_twice()
    ensures { NothingTwice }
{}

/// Changes that can't be queued.
pub fn no_such_message()
    ensures { NoSuchMessage }
{}

/// Numbers that can be answered.
pub fn answered_once()
    ensures { AnsweredOnce }
{}

/// The limits of the queue.
pub fn queue_is_full()
    ensures { QueueIsFull }
{}

/// The samples are legal histories.
pub fn samples_are_legal()
    ensures { SamplesAreLegal }
{}

/// A record that is resetting and has mailboxes.
pub fn resetting_base()
    ensures { ResettingBase }
{}

/// What is known behind a base.
pub fn behind_base()
    ensures { BehindBase }
{}

/// A base whose queue is too long.
pub fn queue_is_too_long()
    ensures { QueueIsTooLong }
{}

/// Records that aren't canonical.
pub fn no_bases()
    ensures { NoBases }
{}
