//! Names, texts, lists, numbers, refusals and faults, and the byte streams of the outside.
#![tactic(auto)]

mod ask_fault;
mod bytes;
mod failure;
mod line;
mod link;
mod list;
mod lists;
mod machine;
mod name;
mod numbers;
mod recipient;
mod refusal;
mod room;
mod short_text;
mod sink;
mod source;
mod store_fault;

pub use ask_fault::AskFault;
pub use bytes::Bytes;
pub use failure::{Failed, Memory, ReadFault};
pub use line::{Line, LineFault};
pub use link::{Link, MemoryLink};
pub use list::List;
pub use lists::{Lines, Names, Printed, Uids};
pub use machine::Machine;
pub use name::{Name, Password, StoreName};
pub use numbers::{read_u32, read_u64};
pub use recipient::Recipient;
pub use refusal::{LimitWord, Refusal};
pub use room::Room;
pub use short_text::ShortText;
pub use sink::{MemorySink, Sink, write_all};
pub use source::{MemorySource, Source};
pub use store_fault::{CommitFault, StoreFault};

#[cfg(test)]
mod tests;
