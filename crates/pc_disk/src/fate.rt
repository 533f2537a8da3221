//! What becomes of a device call.

/// What becomes of a device call of a disk in memory.
#[derive(Clone, Copy, Debug, PartialEq, Eq)]
pub enum Fate {
    Made,
    /// The disk stops at this call, which a crash may have made.
    Stopped,
    Failed,
}
