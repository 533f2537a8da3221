//! The record of what the office holds: written and read.
#![tactic(auto)]

mod loading;
mod saving;
#[cfg(test)]
mod tests;

pub use loading::load;
pub use saving::save;
