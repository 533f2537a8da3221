//! The post office: users, addresses, boards, and the mail that waits.
#![tactic(auto)]

mod allowing;
mod limits;
mod machine;
mod office;
mod planning;
mod telling;
#[cfg(test)]
mod tests;
mod wish;

pub use office::Office;
pub use pc_office_history::OfficeEntry;
pub use wish::OfficeWish;
