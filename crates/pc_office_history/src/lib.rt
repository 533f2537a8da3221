//! The history of the post office: its entries, what they mean, and the record that stands for them.
#![tactic(auto)]

mod entry;
mod kept;
pub mod laws;
mod limits;
pub mod samples;
#[cfg(test)]
mod tests;

pub use entry::OfficeEntry;
pub use kept::{KeptMail, Target, Targets};
pub use limits::{
    MOST_ADDRESSES, MOST_BOARD_MESSAGES, MOST_BOARD_WEIGHT, MOST_BOARDS, MOST_RECIPIENTS,
    MOST_USERS, MOST_WAITING, MOST_WAITING_WEIGHT,
};
