//! What opening finds.

use crate::log::Log;
use crate::opening::Opening;
use pc_base::Bytes;

/// An entry and the place of its gate in the area.
#[derive(Drop)]
pub struct PlacedEntry {
    pub place: u64,
    pub bytes: Bytes,
}

/// What the head of an area says.
#[derive(Drop)]
pub enum Start {
    /// The area isn't made.
    NotMade,
    /// The area is made, and its entries are to be read.
    Made {
        opening: Opening,
        generation: u64,
        first: u64,
        base: Bytes,
    },
}

/// What an area holds.
#[derive(Drop)]
pub enum Found {
    /// The area isn't made.
    NotMade,
    /// The area is made. Its entries stand in order.
    Made {
        log: Log,
        generation: u64,
        first: u64,
        base: Bytes,
        entries: Vec<PlacedEntry>,
    },
}
