//! How much a cache may have.

/// Mailboxes of a cache.
pub const MOST_CACHED: usize = 32_768;

/// Descriptors of all mailboxes.
pub const MOST_DESCRIPTORS: usize = 131_072;

/// Changes that are taken at once.
pub const MOST_TAKEN: usize = 32_768;

/// Bytes in which a `Took` is written.
pub const MOST_TAKEN_BYTES: usize = 8_388_608;

/// Names of mailboxes that are kept.
pub const MOST_NAMES: usize = 32_768;

/// Changes in the queue.
pub const MOST_QUEUED: usize = 4_096;

/// The number of the last change that can be queued.
pub const LAST_QUEUED: u64 = 4_611_686_018_427_387_903;
