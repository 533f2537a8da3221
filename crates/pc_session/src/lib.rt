//! Sessions: who may ask what, and what is answered, at the desk of a user; and the connections that hold them.
#![tactic(auto)]

mod access;
mod answered;
mod answering;
mod asking;
mod attending;
mod changing;
mod conversing;
pub mod laws;
mod logging_in;
mod needs;
mod receipts;
mod repository;
pub mod samples;
mod session;
mod state;
mod task;

pub use access::{DeskAccess, Latest, TakeFault};
pub use conversing::{Cause, Ended, answer_line, converse, refusal_of};
pub use needs::Needs;
pub use receipts::{Receipt, Receipts};
pub use repository::Repository;
pub use session::Session;
pub use state::{Reach, SessionState, Who};

#[cfg(test)]
mod tests;
