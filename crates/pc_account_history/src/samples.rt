//! Small histories, with what their answers must be. Each law is the contract of a function that does nothing.

ghost use Rattle.pc_account_history.specs.Samples.{FlagBetween, NothingTwice, TouchedAgain, ExpungeIsSeen, MadeAgain, CopyIsNotDeleted, ClientAgain, ResetOfOne, SubscribedAgain, FirstLimit, SamplesAreLegal, RecordOfMadeAgain, LettersInOrder, ClientsInOrder, GoneStaysGone, CopyOfCopy, WhileGone, ResetAndGone, ResetsApart, BaseGoesOn, BoundsOfPulls, RoomAgain, NamesApart, NoBases};
ghost use Rattle.pc_account_history.specs.Samples.{MessagesAtLimit, MailboxIsFull, LongMessages, WeightAtLimit, AccountIsFull, ChangesAtLimit, TwoLimits};

/// A client is shown five changes, a flag is set, and the client takes what it was shown: the flagged one stays listed.
pub fn a_flag_between()
    ensures { FlagBetween }
{}

/// What is so already is no entry.
pub fn nothing_twice()
    ensures { NothingTwice }
{}

/// A change that was taken is listed anew by a later touch.
pub fn touched_again()
    ensures { TouchedAgain }
{}

/// An expunge is on the list of every client.
pub fn expunge_is_seen()
    ensures { ExpungeIsSeen }
{}

/// Uids go on where a mailbox is deleted and made again.
pub fn mailbox_made_again()
    ensures { MadeAgain }
{}

/// A copy has the flags of its original, but for flag 0.
pub fn copy_is_not_deleted()
    ensures { CopyIsNotDeleted }
{}

/// A client that is made again begins with all that lives.
pub fn client_made_again()
    ensures { ClientAgain }
{}

/// A reset of a mailbox lists what lives there.
pub fn reset_of_one_mailbox()
    ensures { ResetOfOne }
{}

/// Subscriptions keep their order, and marks begin at 0.
pub fn subscribed_again()
    ensures { SubscribedAgain }
{}

/// Which limits an entry meets.
pub fn first_limit()
    ensures { FirstLimit }
{}

/// The samples are legal histories.
pub fn samples_are_legal()
    ensures { SamplesAreLegal }
{}

/// What the record keeps of a mailbox that was made again.
pub fn record_of_made_again()
    ensures { RecordOfMadeAgain }
{}

/// Letters of a pull get the next uids of their mailboxes in order.
pub fn letters_in_order()
    ensures { LettersInOrder }
{}

/// Clients stand in the order in which they were made.
pub fn clients_in_order()
    ensures { ClientsInOrder }
{}

/// A message that is gone isn't touched again.
pub fn gone_stays_gone()
    ensures { GoneStaysGone }
{}

/// A copy has the flags that its original had then, and goes its own way.
pub fn copy_of_copy()
    ensures { CopyOfCopy }
{}

/// A deleted mailbox keeps its lists, and made again it is the last.
pub fn while_gone()
    ensures { WhileGone }
{}

/// A reset lists anew what lives, and leaves what is gone.
pub fn reset_and_gone()
    ensures { ResetAndGone }
{}

/// A reset is of one client, or of one client and one mailbox.
pub fn resets_apart()
    ensures { ResetsApart }
{}

/// Entries behind a base go on from what it says, and it is canonical.
pub fn base_goes_on()
    ensures { BaseGoesOn }
{}

/// How far a pull may go, and how many letters it may have.
pub fn bounds_of_pulls()
    ensures { BoundsOfPulls }
{}

/// What makes room below a limit.
pub fn room_again()
    ensures { RoomAgain }
{}

/// Names are told apart by all their letters.
pub fn names_apart()
    ensures { NamesApart }
{}

/// Records that stand for no history.
pub fn no_bases()
    ensures { NoBases }
{}

/// The most messages of a mailbox.
pub fn messages_at_limit()
    ensures { MessagesAtLimit }
{}

/// A mailbox into which no more messages come.
pub fn mailbox_is_full()
    ensures { MailboxIsFull }
{}

/// There are messages as long as the next two samples have them.
pub fn long_messages()
    ensures { LongMessages }
{}

/// The most that all messages may weigh.
pub fn weight_at_limit()
    ensures { WeightAtLimit }
{}

/// An account into which no more weight comes.
pub fn account_is_full()
    ensures { AccountIsFull }
{}

/// The most changes on all lists.
pub fn changes_at_limit()
    ensures { ChangesAtLimit }
{}

/// Where two limits would be passed, the first is told.
pub fn two_limits()
    ensures { TwoLimits }
{}
