//! The room that is left in a store.

/// How much a store still takes before it is full.
#[derive(Clone, Copy, Debug, PartialEq, Eq)]
pub struct Room {
    /// Entries.
    pub entries: u32,
    /// Bytes of entries, as they are written.
    pub bytes: u32,
}
