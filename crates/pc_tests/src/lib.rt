//! Tests that cross crates: what stores of accounts and of the office leave and open, byte for byte, and what sessions over them say.
#![tactic(auto)]

#[cfg(test)]
mod accounts;
#[cfg(test)]
mod commits;
#[cfg(test)]
mod connections;
#[cfg(test)]
mod folds;
#[cfg(test)]
mod houses;
#[cfg(test)]
mod offices;
#[cfg(test)]
mod openings;
#[cfg(test)]
mod sessions;
#[cfg(test)]
mod stores;
