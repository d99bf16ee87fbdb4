//! The routines that compiled procedures call: words that copy, zero and compare bytes.
//!
//! They stand once in each image, before the procedures, and work on registers X0 to X6 alone; what they do to memory,
//! cell by cell, is what `block_runs` says of their parts. The layer that puts images together takes `routine_words`.
#![tactic(auto)]

mod routine;

pub use routine::{Routine, routine_words};
