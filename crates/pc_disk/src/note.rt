//! How a device call is noted.

use crate::fate::Fate;

/// A device call. The bytes of a write lie elsewhere, in one piece.
#[derive(Clone, Copy)]
pub enum NotedCall {
    Write {
        area: u8,
        at: usize,
        start: usize,
        count: usize,
    },
    Cut {
        area: u8,
        to: usize,
    },
    Sync,
}

/// A device call and what became of it.
#[derive(Clone, Copy)]
pub struct Note {
    pub fate: Fate,
    pub call: NotedCall,
}
