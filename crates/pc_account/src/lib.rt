//! One user's mail state: its journal, what it allows, and what it answers.
#![tactic(auto)]

mod account;
mod allowing;
mod answer;
mod answering;
mod forgetting;
pub mod laws;
mod limits;
mod machine;
mod parcels;
mod planning;
mod secret;
mod taking;
mod wish;

pub use account::Account;
pub use answer::{
    Answer, ClientRow, ClientRows, MailboxRow, MailboxRows, Question, SubscriptionRow,
    SubscriptionRows,
};
pub use pc_account_history::Entry;
pub use secret::digest;
pub use wish::Wish;

#[cfg(test)]
mod tests;
