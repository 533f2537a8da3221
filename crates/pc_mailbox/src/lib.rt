//! A mailbox: its messages, and for each client the changes that it hasn't taken yet.
#![tactic(auto)]

mod growth;
mod mailbox;
mod messages;
mod shown;
mod update_list;
mod update_lists;

pub use mailbox::Mailbox;
pub use shown::Shown;
pub use update_list::UpdateList;

#[cfg(test)]
mod tests;
