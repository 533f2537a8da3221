//! Small histories, with what their answers must be. Each law is the contract of a function that does nothing.

ghost use Rattle.pc_office_history.specs.Samples.{SentToThree, NoRecipient, OnePulled, NoSuchPull, PulledByOne, ToTwoMailboxes, ThreePulled, FirstName, TakenByOther, NamesAreShared, NoSuchAddress, InOrderOfTaking, NamesApart, OnBoards, SixtyFourAtOnce, BaseGoesOn, NamesAreFew, MailsAreFew, WaitingIsFew, BoardIsFull, WaitingWeight, BoardWeight, TwoLimits, ThreeLimits, SamplesAreLegal, NoBases, UsersAtLimit, BoardAtLimit, WaitingAtLimit, WithoutAddress};

/// A mail to two users and a board.
pub fn sent_to_three()
    ensures { SentToThree }
{}

/// Mail is refused for a name that nobody has.
pub fn no_recipient()
    ensures { NoRecipient }
{}

/// What was pulled waits no more.
pub fn one_pulled()
    ensures { OnePulled }
{}

/// What can't be noted as pulled.
pub fn no_such_pull()
    ensures { NoSuchPull }
{}

/// What one user pulled waits for the other.
pub fn pulled_by_one()
    ensures { PulledByOne }
{}

/// Mails to two mailboxes of a user.
pub fn to_two_mailboxes()
    ensures { ToTwoMailboxes }
{}

/// Three mails that are pulled, and one more.
pub fn three_pulled()
    ensures { ThreePulled }
{}

/// A mail goes to a user once, as the first of its names says.
pub fn first_name()
    ensures { FirstName }
{}

/// An address that another user takes leaves the mail that was sent before.
pub fn taken_by_other()
    ensures { TakenByOther }
{}

/// Users, boards and addresses share one space of names.
pub fn names_are_shared()
    ensures { NamesAreShared }
{}

/// Addresses that can't be taken or dropped.
pub fn no_such_address()
    ensures { NoSuchAddress }
{}

/// Lists are in order of making and taking.
pub fn in_order_of_taking()
    ensures { InOrderOfTaking }
{}

/// Names are told apart by all their letters.
pub fn names_apart()
    ensures { NamesApart }
{}

/// Boards keep their messages in order.
pub fn on_boards()
    ensures { OnBoards }
{}

/// At most 64 mails are told at once.
pub fn sixty_four_at_once()
    ensures { SixtyFourAtOnce }
{}

/// Entries behind a base go on from what it says.
pub fn base_goes_on()
    ensures { BaseGoesOn }
{}

/// The limits of users, boards and addresses.
pub fn names_are_few()
    ensures { NamesAreFew }
{}

/// The limits of recipients and of all mails.
pub fn mails_are_few()
    ensures { MailsAreFew }
{}

/// The limit of mails that wait for one user.
pub fn waiting_is_few()
    ensures { WaitingIsFew }
{}

/// The limit of messages on one board.
pub fn board_is_full()
    ensures { BoardIsFull }
{}

/// The weight that may wait for one user.
pub fn waiting_weight()
    ensures { WaitingWeight }
{}

/// The weight that may stand on all boards.
pub fn board_weight()
    ensures { BoardWeight }
{}

/// A user that would pass two limits.
pub fn two_limits()
    ensures { TwoLimits }
{}

/// Mails that would pass three limits, two, and one.
pub fn three_limits()
    ensures { ThreeLimits }
{}

/// A new office is legal, and so are eight of the samples.
pub fn samples_are_legal()
    ensures { SamplesAreLegal }
{}

/// Records that aren't well formed.
pub fn no_bases()
    ensures { NoBases }
{}

/// The most users.
pub fn users_at_limit()
    ensures { UsersAtLimit }
{}

/// The most messages of a board.
pub fn board_at_limit()
    ensures { BoardAtLimit }
{}

/// The most mails that wait for a user.
pub fn waiting_at_limit()
    ensures { WaitingAtLimit }
{}

/// A user without its own address.
pub fn without_address()
    ensures { WithoutAddress }
{}
