//! What a crash makes of what isn't synced.

/// What a crash of a disk in memory leaves of the writes and cuts since the last sync that
/// succeeded, with that of the call at which it stopped.
#[derive(Clone, Copy, Debug, PartialEq, Eq)]
pub enum Choice {
    /// They stand.
    Keep,
    /// None of them stands.
    Lose,
    /// Each written byte is this one. Cuts stand.
    Fill(u8),
}
