//! Tests on rows that were worked out by hand.

mod full;
mod player;
mod rows;
