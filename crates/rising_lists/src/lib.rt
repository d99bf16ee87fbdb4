//! Lists of numbers that rise, each above the one before.
//!
//! Sets that are made once and read in order stand in such lists. `is_rising` tells whether a list is one, `rank` where a
//! number stands in it, and a `Finder` looks numbers up: where these rise too, all of them take one pass.
#![tactic(auto)]

mod finder;
mod rising;

pub use finder::Finder;
pub use rising::{is_at, is_rising, rank, rank_near};
