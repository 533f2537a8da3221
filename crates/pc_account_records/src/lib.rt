//! The record of what an account holds: written, read, and given the number of the next entry.
#![tactic(auto)]

mod loading;
mod numbering;
mod saving;

pub use loading::load;
pub use numbering::suits;
pub use saving::save;
