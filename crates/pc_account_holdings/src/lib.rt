//! What an account holds, what is counted over it, and the step of each entry.
#![tactic(auto)]

mod counts;
mod holdings;
mod mailboxes;

pub use holdings::Holdings;
pub use mailboxes::{ClientChange, Mailboxes};
