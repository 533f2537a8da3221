//! What holds of every legal history. Each law is the contract of a function that does nothing.

ghost use Rattle.pc_cache_history.specs.Laws.{RecordAnswersAsHistory, RecordInPlaceOfHistory, RecordIsCanonical, StepIsOneEntryMore, RecordIsReadOff, NewCacheIsLegal, LimitsHold, MailboxesAreCached, MailboxesKeepTheirOrder, BaseIsListed, BaseIsOfItsUids, RisingListsAreByUid, TookReplacesTheNamed, TakenIsShort, ChangesAreCounted, CountIsOfTheMailbox, KeptLeavesTheOthersOut, BeginEmptiesTheBase, ResettingIsEmpty, EntriesLeaveTheRest, QueueIsUnanswered, NumbersRise, NumbersComeOnce, ViewIsOfBase, ViewWithoutItems, QueuedIsShown, AnsweredIsShown};

/// The record of a history answers every question as the history does.
pub fn record_answers_as_history()
    ensures { RecordAnswersAsHistory }
{}

/// A record may stand in the place of the history whose record it is, whatever comes behind.
pub fn record_in_place_of_history()
    ensures { RecordInPlaceOfHistory }
{}

/// The record of a legal history is canonical.
pub fn record_is_canonical()
    ensures { RecordIsCanonical }
{}

/// The step of a record is one entry more.
pub fn step_is_one_entry_more()
    ensures { StepIsOneEntryMore }
{}

/// What is said of a mailbox, and how many descriptors there are, is read off the record.
pub fn record_is_read_off()
    ensures { RecordIsReadOff }
{}

/// A new cache is a legal history.
pub fn new_cache_is_legal()
    ensures { NewCacheIsLegal }
{}

/// No limit is passed at any place of a legal history.
pub fn limits_hold()
    ensures { LimitsHold }
{}

/// The mailboxes are those that were taken and not left out since the last `Begin`.
pub fn mailboxes_are_cached()
    ensures { MailboxesAreCached }
{}

/// Mailboxes keep their order, and new ones come last.
pub fn mailboxes_keep_their_order()
    ensures { MailboxesKeepTheirOrder }
{}

/// The descriptors of a mailbox rise, and show each uid of its base.
pub fn base_is_listed()
    ensures { BaseIsListed }
{}

/// What stands under a uid is of this uid.
pub fn base_is_of_its_uids()
    ensures { BaseIsOfItsUids }
{}

/// The descriptors of a mailbox are told by what stands under each uid.
pub fn rising_lists_are_by_uid()
    ensures { RisingListsAreByUid }
{}

/// What is taken replaces the uids that it names, and nothing else.
pub fn took_replaces_the_named()
    ensures { TookReplacesTheNamed }
{}

/// What is taken is written in few enough bytes.
pub fn taken_is_short()
    ensures { TakenIsShort }
{}

/// How many descriptors of a mailbox there are once changes are taken.
pub fn changes_are_counted()
    ensures { ChangesAreCounted }
{}

/// What is taken of a mailbox counts for what there is of it, and for no other.
pub fn count_is_of_the_mailbox()
    ensures { CountIsOfTheMailbox }
{}

/// Mailboxes that aren't kept are left out, and the others stay.
pub fn kept_leaves_the_others_out()
    ensures { KeptLeavesTheOthersOut }
{}

/// A cache that begins anew has no copies, and its queue stays.
pub fn begin_empties_the_base()
    ensures { BeginEmptiesTheBase }
{}

/// In what began with a new cache, one that is resetting has no mailboxes.
pub fn resetting_is_empty()
    ensures { ResettingIsEmpty }
{}

/// What each entry leaves as it was.
pub fn entries_leave_the_rest()
    ensures { EntriesLeaveTheRest }
{}

/// A queued change stays in the queue until it is answered.
pub fn queue_is_unanswered()
    ensures { QueueIsUnanswered }
{}

/// The numbers of queued changes rise.
pub fn numbers_rise()
    ensures { NumbersRise }
{}

/// No number of a queued change comes again.
pub fn numbers_come_once()
    ensures { NumbersComeOnce }
{}

/// The view shows the messages of the base.
pub fn view_is_of_base()
    ensures { ViewIsOfBase }
{}

/// The view of a mailbox without queued changes is its base.
pub fn view_without_items()
    ensures { ViewWithoutItems }
{}

/// A queued change is shown at its message, and at no other.
pub fn queued_is_shown()
    ensures { QueuedIsShown }
{}

/// Once a change is answered, every message but its own is shown as before.
pub fn answered_is_shown()
    ensures { AnsweredIsShown }
{}
