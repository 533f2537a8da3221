//! How much the office may have.

/// Users of the office.
pub const MOST_USERS: usize = 32;

/// Boards of the office.
pub const MOST_BOARDS: usize = 64;

/// Addresses, the users' own names among them.
pub const MOST_ADDRESSES: usize = 1_024;

/// Names that a mail may be for.
pub const MOST_RECIPIENTS: usize = 64;

/// Mails that wait for one user, past the number that is noted.
pub const MOST_WAITING: usize = 1_024;

/// The weight of the mails that wait for one user, each its size and 256 bytes.
pub const MOST_WAITING_WEIGHT: u32 = 4_194_304;

/// Messages of one board.
pub const MOST_BOARD_MESSAGES: usize = 4_096;

/// The weight of the messages of all boards, one that is on two boards counted twice.
pub const MOST_BOARD_WEIGHT: u32 = 67_108_864;
