//! The spelling of an account: how a store writes and reads its entries and records.
#![tactic(auto)]

pub mod laws;
pub mod record_laws;
mod spelling;
#[cfg(test)]
mod tests;

pub use spelling::{fits, read_digest, read_entry, read_messages, write_entry};
