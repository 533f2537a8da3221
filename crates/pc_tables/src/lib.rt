//! Names, tables of what stands under names, orders and sums.
#![tactic(auto)]

pub mod laws;
mod sums;
pub mod tables;

pub use sums::replaced;
