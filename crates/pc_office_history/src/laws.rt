//! What holds of every legal history. Each law is the contract of a function that does nothing.

ghost use Rattle.pc_office_history.specs.Laws.{RecordAnswersAsHistory, RecordInPlaceOfHistory, RecordIsCanonical, LimitsHold, LimitIsPassed, FirstLimitIsTold, StepIsOneEntryMore, StepIsFormedAgain, RecordIsReadOff, RecordIsBounded, NamesAreApart, OwnNameStays, OwnNamesAreKept, TargetIsOfFirstName, MailsAreNumbered, MailHasItsNumber, WaitingIsPastNoted, WaitingIsInOrder, NumbersNeverFall, AcceptedMailWaits, MailIsAdded, PulledIsTaken, WaitingStays, MailsAreToldInOrder, NothingIsLeftOut, WaitingIsOfTargets, BoardsOnlyGrow, MessageIsAdded, WeightIsAdded};

/// The record of a history answers every question as the history does.
pub fn record_answers_as_history()
    ensures { RecordAnswersAsHistory }
{}

/// A record may stand in the place of the history whose record it is, whatever comes behind.
pub fn record_in_place_of_history()
    ensures { RecordInPlaceOfHistory }
{}

/// The record of a legal history is canonical.
pub fn record_is_canonical()
    ensures { RecordIsCanonical }
{}

/// No limit is passed at any place of a legal history.
pub fn limits_hold()
    ensures { LimitsHold }
{}

/// A limit is told only where it would be passed.
pub fn limit_is_passed()
    ensures { LimitIsPassed }
{}

/// Of all limits the first that would be passed is told, to each allowed entry and to each mail.
pub fn first_limit_is_told()
    ensures { FirstLimitIsTold }
{}

/// The step of a record is one entry more.
pub fn step_is_one_entry_more()
    ensures { StepIsOneEntryMore }
{}

/// The step of a record is one entry more, whether or not it passes a limit.
pub fn step_is_formed_again()
    ensures { StepIsFormedAgain }
{}

/// A canonical record keeps no more mails than may wait for its users.
pub fn record_is_bounded()
    ensures { RecordIsBounded }
{}

/// The weight of all boards and the addresses of a mailbox are read off the record.
pub fn record_is_read_off()
    ensures { RecordIsReadOff }
{}

/// Boards have names of their own, and addresses are for users.
pub fn names_are_apart()
    ensures { NamesAreApart }
{}

/// No user's own name is taken away.
pub fn own_name_stays()
    ensures { OwnNameStays }
{}

/// Where each user's name is its own address, it stays so.
pub fn own_names_are_kept()
    ensures { OwnNamesAreKept }
{}

/// A mail goes to each of its users once, as the first of its names says.
pub fn target_is_of_first_name()
    ensures { TargetIsOfFirstName }
{}

/// Mails are numbered in the order in which they are accepted.
pub fn mails_are_numbered()
    ensures { MailsAreNumbered }
{}

/// A mail is found under the number that it gets.
pub fn mail_has_its_number()
    ensures { MailHasItsNumber }
{}

/// What waits for a user is what was sent to it, past the number that is noted.
pub fn waiting_is_past_noted()
    ensures { WaitingIsPastNoted }
{}

/// What waits for a user has rising numbers, of accepted mails past the noted one.
pub fn waiting_is_in_order()
    ensures { WaitingIsInOrder }
{}

/// No number of the office ever falls.
pub fn numbers_never_fall()
    ensures { NumbersNeverFall }
{}

/// A mail waits for each of its users until it is noted as pulled.
pub fn accepted_mail_waits()
    ensures { AcceptedMailWaits }
{}

/// A mail is added to what waits for its users, and nothing else is.
pub fn mail_is_added()
    ensures { MailIsAdded }
{}

/// What one user pulls is taken from what waits for it, and for no other.
pub fn pulled_is_taken()
    ensures { PulledIsTaken }
{}

/// Other entries leave what waits.
pub fn waiting_stays()
    ensures { WaitingStays }
{}

/// A user is told of mails in order, past what it asks for, and at most 64 at once.
pub fn mails_are_told_in_order()
    ensures { MailsAreToldInOrder }
{}

/// What is told leaves nothing out of what waits.
pub fn nothing_is_left_out()
    ensures { NothingIsLeftOut }
{}

/// Whether too much would wait is known from the users to whom a mail goes.
pub fn waiting_is_of_targets()
    ensures { WaitingIsOfTargets }
{}

/// What stands on a board stays there.
pub fn boards_only_grow()
    ensures { BoardsOnlyGrow }
{}

/// A message is added to the boards that it is sent to, and nothing else is.
pub fn message_is_added()
    ensures { MessageIsAdded }
{}

/// A message that is sent to two boards counts twice.
pub fn weight_is_added()
    ensures { WeightIsAdded }
{}
