//! What callers rely on of every answer, of all receipts, and of records in place of histories. Each law is the contract of a function
//! that does nothing.

ghost use Rattle.pc_session.specs.Laws.{LastIsKept, NeverFails, OtherPassStays, RecordAnswersSessions, RecordStandsIn, SameAnswer, SinceIsKept, StandInAnswers, StaysKept};

use pc_account_history::laws::record_in_place_of_history;

/// The repository of one thread never tells that the disk failed.
pub fn never_fails()
    ensures { NeverFails }
{}

/// It looks at the history of a desk, the last session number drawn and the latest sessions, and at nothing else.
pub fn same_answer()
    ensures { SameAnswer }
{}

/// A change that is kept stays kept when one more entry is made.
pub fn stays_kept()
    ensures { StaysKept }
{}

/// The entry that was just made is kept.
pub fn last_is_kept()
    ensures { LastIsKept }
{}

/// The receipt of one user's change is no pass of another user.
pub fn other_pass_stays()
    ensures { OtherPassStays }
{}

/// The record of a history stands in for the history at a desk, whatever comes behind.
pub fn record_stands_in()
    ensures { RecordStandsIn }
{
    record_in_place_of_history();
}

/// Where a desk stands in for another, requests come to the same, as long as the other's journal has room.
pub fn stand_in_answers()
    ensures { StandInAnswers }
{}

/// Over the record of a history sessions are answered as over the history.
pub fn record_answers_sessions()
    ensures { RecordAnswersSessions }
{
    record_stands_in();
    stand_in_answers();
}

/// A change that was told since a history was folded is kept over its record where it is kept over the history.
pub fn since_is_kept()
    ensures { SinceIsKept }
{}
