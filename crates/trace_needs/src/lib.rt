//! Where a trace needs and mentions its values.
//!
//! The positions of a trace are numbered from 0: for each node its start, each operation, its end. `needs` and `mentions`
//! make tables by which the first position from a number on that needs a value, and the last before a number that
//! mentions it, are found in the value's row, or by halving; the definition (`specs/Needs.antt`) searches all positions.
//! `LateMentions` makes its table when it is first asked: most traces never ask.
//! Allocators evict by the first and keep apart what is dead by it (Poletto and Sarkar, 1999; Eisl and others, 2016).
#![tactic(auto)]

mod asking;
mod building;
mod late;
mod mentioning;
mod needing;
mod notes;
mod rows;
mod table;

pub use asking::{Mentions, Needs};
pub use building::{mentions, needs};
pub use late::LateMentions;
