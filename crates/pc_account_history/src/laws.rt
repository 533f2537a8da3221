//! What holds of every legal history. Each law is the contract of a function that does nothing.

ghost use Rattle.pc_account_history.specs.Laws.{RecordAnswersAsHistory, RecordInPlaceOfHistory, RecordIsCanonical, ChangesAreTheUpdateList, StampsAreNumbersOfEntries, LimitsHold, LimitIsPassed, RecordIsCounted, StepIsOneEntryMore, StepIsFormedAgain, UntouchedStays, UnlistedWasTaken, ClientStays, SameStampSameMessage, ListedIsTouchedSince, KeptUnderItsUid, OneFlagIsSet};
ghost use Rattle.pc_account_history.specs.Laws.{UnlistedIsUnchanged, EarlierStampStays, ListedStays, LivingIsListed, ResetListsWhatLives, EarlierBirthStays, FlagIsKept, NextIsPositive, BirthIsBefore, StampsAreBefore, ListedIsOnTheList, LivesInAMailbox, DescriptorsAreByUid, ChangeNamesItsUid, FirstLimitIsTold};

/// The record of a history answers every question as the history does.
pub fn record_answers_as_history()
    ensures { RecordAnswersAsHistory }
{}

/// A record may stand in the place of the history whose record it is, whatever comes behind.
pub fn record_in_place_of_history()
    ensures { RecordInPlaceOfHistory }
{}

/// The record of a legal history is canonical.
pub fn record_is_canonical()
    ensures { RecordIsCanonical }
{}

/// The list that a history keeps for a client is its update list, by stamp and then uid.
pub fn changes_are_the_update_list()
    ensures { ChangesAreTheUpdateList }
{}

/// Births and stamps are numbers of entries, and listed uids were given.
pub fn stamps_are_numbers_of_entries()
    ensures { StampsAreNumbersOfEntries }
{}

/// No limit is passed at any place of a legal history.
pub fn limits_hold()
    ensures { LimitsHold }
{}

/// A limit is told only where it would be passed.
pub fn limit_is_passed()
    ensures { LimitIsPassed }
{}

/// Messages, weight and changes are counted over the record.
pub fn record_is_counted()
    ensures { RecordIsCounted }
{}

/// The step of a record is one entry more.
pub fn step_is_one_entry_more()
    ensures { StepIsOneEntryMore }
{}

/// The step of a record is one entry more, whether or not it passes a limit.
pub fn step_is_formed_again()
    ensures { StepIsFormedAgain }
{}

/// An entry that doesn't touch a message for a client leaves it as it was.
pub fn untouched_stays()
    ensures { UntouchedStays }
{}

/// What lives and isn't listed for a client was taken by it.
pub fn unlisted_was_taken()
    ensures { UnlistedWasTaken }
{}

/// A client has its birth until an entry makes it or drops it.
pub fn client_stays()
    ensures { ClientStays }
{}

/// A stamp that is still the one that was shown shows that the message is what it was.
pub fn same_stamp_same_message()
    ensures { SameStampSameMessage }
{}

/// While a client takes nothing, its list tells exactly what was touched.
pub fn listed_is_touched_since()
    ensures { ListedIsTouchedSince }
{}

/// A message that lives is kept under its own uid.
pub fn kept_under_its_uid()
    ensures { KeptUnderItsUid }
{}

/// Setting a flag leaves the other flags as they were.
pub fn one_flag_is_set()
    ensures { OneFlagIsSet }
{}

/// What an entry leaves unlisted for a client is as it was, and was unlisted before or is taken now.
pub fn unlisted_is_unchanged()
    ensures { UnlistedIsUnchanged }
{}

/// A stamp below the number of an entry was there before it, and the message is as it was.
pub fn earlier_stamp_stays()
    ensures { EarlierStampStays }
{}

/// What is listed for a client stays listed until the client takes it, is made or is dropped.
pub fn listed_stays()
    ensures { ListedStays }
{}

/// While a client takes nothing, what comes to live is listed for it.
pub fn living_is_listed()
    ensures { LivingIsListed }
{}

/// After a reset of a client all that lives is listed for it.
pub fn reset_lists_what_lives()
    ensures { ResetListsWhatLives }
{}

/// A birth below the number of an entry was the birth before it.
pub fn earlier_birth_stays()
    ensures { EarlierBirthStays }
{}

/// After a flag is set, the message has it so.
pub fn flag_is_kept()
    ensures { FlagIsKept }
{}

/// Entries are numbered from 1.
pub fn next_is_positive()
    ensures { NextIsPositive }
{}

/// A birth is the number of an entry before the next.
pub fn birth_is_before()
    ensures { BirthIsBefore }
{}

/// The stamps on a list are numbers of entries before the next.
pub fn stamps_are_before()
    ensures { StampsAreBefore }
{}

/// A uid is listed with the stamp that it has on the list.
pub fn listed_is_on_the_list()
    ensures { ListedIsOnTheList }
{}

/// A message that lives is in a mailbox that lives.
pub fn lives_in_a_mailbox()
    ensures { LivesInAMailbox }
{}

/// Descriptors are listed by rising uid, and each is that of the message with its uid.
pub fn descriptors_are_by_uid()
    ensures { DescriptorsAreByUid }
{}

/// What a client is told of a uid names that uid.
pub fn change_names_its_uid()
    ensures { ChangeNamesItsUid }
{}

/// Of all limits the first that is passed is told.
pub fn first_limit_is_told()
    ensures { FirstLimitIsTold }
{}
