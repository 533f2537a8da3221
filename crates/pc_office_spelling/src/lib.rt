//! The spelling of the post office: how a store writes and reads its entries and records.
#![tactic(auto)]

mod entry_fitting;
mod entry_reading;
mod entry_writing;
pub mod laws;
pub mod record_laws;
pub mod samples;
#[cfg(test)]
mod tests;

pub use entry_fitting::fits;
pub use entry_reading::read_entry;
pub use entry_writing::write_entry;
