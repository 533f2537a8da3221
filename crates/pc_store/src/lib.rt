//! A machine's state on a disk: the record of a base, and a log of the entries since.
#![tactic(auto)]

mod committing;
mod current;
mod fault;
mod folding;
mod making;
mod reading;
mod store;

pub use fault::OpenFault;
pub use store::Store;

#[cfg(test)]
mod tests;
