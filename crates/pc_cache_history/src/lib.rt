//! The history of a client's cache: its entries, what they mean, and the record that stands for them.
#![tactic(auto)]

mod entry;
mod item;
pub mod laws;
mod limits;
pub mod samples;
#[cfg(test)]
mod tests;

pub use entry::CacheEntry;
pub use item::Item;
pub use limits::{
    LAST_QUEUED, MOST_CACHED, MOST_DESCRIPTORS, MOST_NAMES, MOST_QUEUED, MOST_TAKEN,
    MOST_TAKEN_BYTES,
};
