//! Allocation without a choice.
//!
//! `plain` keeps every value in its home: what an operation reads is loaded before it, what it makes is stored behind it
//! (`specs/plain/Plain.antt`). Its results are sound for every trace of every valid flow, with 4 to 16 registers, so it stands
//! beside the allocators that choose, and edges between their traces need no more than for any other.

mod allocating;
mod homed;
mod lines;

pub use allocating::plain;
pub use lir_core::{TraceIn, TraceOut};
