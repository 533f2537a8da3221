//! How a store writes and reads entries.

mod digest_reading;
mod entry_fitting;
mod entry_reading;
mod entry_writing;
mod message_reading;

pub use digest_reading::read_digest;
pub use entry_fitting::fits;
pub use entry_reading::read_entry;
pub use entry_writing::write_entry;
pub use message_reading::read_messages;
