//! What the post office holds, what is counted of the mail that waits, and the step of each entry.
#![tactic(auto)]

mod boards;
mod holdings;
mod users;

pub use boards::{Boards, Messages};
pub use holdings::Holdings;
pub use users::{Standing, Users};
