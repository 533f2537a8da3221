//! One line of a script, played.

/// How a turn of a replay went.
#[derive(Clone, Copy, Debug, PartialEq, Eq)]
pub(crate) enum Turn {
    /// The line's event was played.
    Played,
    /// The input has no more line.
    Ended,
    /// The line is no event, or names what isn't there.
    Refused,
    /// The input failed.
    ReadFault,
    /// Want of memory.
    Memory,
}
