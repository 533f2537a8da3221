//! Replies and the lists that they carry.
#![tactic(auto)]

mod first_line;
mod flags;
mod head;
mod items;
pub mod laws;
mod parts;
mod reading;
mod reply;
mod reply_feed;
mod text;

pub use head::Head;
pub use items::{
    ItemFault, Mode, client_line, counted_line, name_line, push_change, push_descriptor,
};
pub use reading::{read_changes, read_mailboxes};
pub use reply::Reply;
pub use reply_feed::{ReplyFeed, ReplyNext};

#[cfg(test)]
mod tests;
