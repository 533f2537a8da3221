//! Worlds: the events of a script, what they do, and the replay of a whole script.
#![tactic(auto)]

mod event;
pub mod laws;
mod reading;
mod replaying;
mod repository;
mod transcript;
mod turn;
mod user;
mod world;

pub use event::{Asked, Event, EventFault};
pub use reading::read_event;
pub use replaying::{ReplayEnd, replay};
pub use world::World;

#[cfg(test)]
mod tests;
