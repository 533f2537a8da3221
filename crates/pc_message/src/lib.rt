//! Messages, their descriptors and their recipients.
#![tactic(auto)]

mod addresses;
mod descriptor;
mod flags;
mod header;
mod limits;
mod lists;
mod message;

pub use addresses::{RecipientFault, recipients};
pub use descriptor::{Change, Descriptor, describe};
pub use flags::{is_on, with_flag};
pub use limits::{LAST_MAIL, MOST_LETTERS};
pub use lists::{Changes, Letters, Mail, Mails};
pub use message::Message;

#[cfg(test)]
mod tests;
