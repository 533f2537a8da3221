//! How much mail is pulled.

/// Letters in one pull.
pub const MOST_LETTERS: usize = 64;

/// The number of the last mail that can be pulled.
pub const LAST_MAIL: u64 = 9_223_372_036_854_775_807;
