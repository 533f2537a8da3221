//! A client's cache: its copies of descriptors, and its queue of changes.
#![tactic(auto)]

mod allowing;
mod cache;
mod descriptors;
mod differing;
mod holdings;
mod mailboxes;
mod name_set;
mod room;
mod telling;
#[cfg(test)]
mod tests;

pub use cache::Cache;
