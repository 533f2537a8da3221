//! The history of an account: its entries, what they mean, and the record that stands for them.
#![tactic(auto)]

mod entry;
mod kept;
pub mod laws;
mod limits;
pub mod samples;
#[cfg(test)]
mod tests;

pub use entry::Entry;
pub use kept::{Kept, Listed};
pub use limits::{
    MOST_CHANGES, MOST_CLIENTS, MOST_MAILBOXES, MOST_MESSAGES, MOST_SUBSCRIPTIONS, MOST_UIDS,
    MOST_WEIGHT,
};
