//! The desk of a user: the store of the account, and the latest session of each client.
#![tactic(auto)]

mod access;
mod asking;
mod desk;
mod enrolling;
pub mod laws;
mod sessions;
mod single;

pub use desk::Desk;
pub use single::Single;
