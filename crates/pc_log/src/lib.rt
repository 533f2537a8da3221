//! A log of entries behind gates, in an area of a disk.
#![tactic(auto)]

mod create;
mod fault;
mod found;
mod head;
mod log;
mod opening;

pub use fault::{AppendFault, LogFault};
pub use found::{Found, PlacedEntry, Start};
pub use head::{Numbers, peek};
pub use log::Log;
pub use opening::Opening;

#[cfg(test)]
mod tests;
