//! A well-formed program is never senseless.
//!
//! What well-formed means is a definition of `ob_types` (specs/WellFormed.antt); the checker promises it, and the
//! lowering asks for it. Here it is proved that such a program, on each input and with each number of turns, ends,
//! goes on or traps with a kind (`makes_sense`).
#![tactic(auto)]

mod laws;

pub use laws::{makes_sense, ranked_is_fine};
