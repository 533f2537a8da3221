//! Lines, words, and lines that come in pieces.
#![tactic(auto)]

mod fetched;
mod body_feed;
pub mod body_laws;
pub mod laws;
mod line_feed;
mod line_reader;
mod places;
mod read_buffer;
pub mod reader_laws;
mod words;
mod writing;

pub use fetched::Fetched;
pub use body_feed::{BodyFeed, BodyStep};
pub use line_feed::{LineFeed, Next};
pub use line_reader::LineReader;
pub use words::{next_word, without_spaces};
pub use writing::{write_body, write_line};

#[cfg(test)]
mod tests;
