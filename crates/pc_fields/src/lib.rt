//! Fields and messages, written and read one after the other, and what holds of the bytes of any format.
#![tactic(auto)]

mod cursor;
mod ending;
mod field_testing;
mod field_writing;
mod fitting;
mod message_reading;
#[cfg(test)]
mod tests;

pub use cursor::{Cursor, Halt};
pub use ending::end;
pub use field_testing::read_same_name;
pub use field_writing::{
    write_bool, write_message, write_name, write_u8, write_u16, write_u32, write_u64,
};
pub use fitting::{fits_message, fits_name, fits_names};
pub use message_reading::read_message;
