//! The disk under a store: a model of what a crash may leave, and a disk in memory that tells it.
#![tactic(auto)]

mod alarm;
mod areas;
mod choice;
mod deeds;
mod disk;
mod fate;
mod folder;
mod memory_disk;
mod memory_folder;
mod note;
mod placed;
mod replay;
mod shelf;
mod silent_disk;
mod steps;

pub use choice::Choice;
pub use disk::Disk;
pub use folder::Folder;
pub use memory_disk::MemoryDisk;
pub use memory_folder::MemoryFolder;
pub use placed::Placed;
pub use silent_disk::SilentDisk;
pub use steps::{StepFault, put, trim};

#[cfg(test)]
mod tests;
