//! The grammar of request lines: every operation is read and written.
#![tactic(auto)]

mod arguments;
pub mod laws;
mod lengths;
mod operation;
mod reading;
mod request;
mod text;
mod writing;

pub use operation::Operation;
pub use reading::{no_arguments, one_name};
pub use request::{Request, RequestFault};
pub use text::LINE_ROOM;

#[cfg(test)]
mod tests;
