//! Where values stand along a trace, and the lines written so far.
//!
//! `Forward` goes from a trace's start to its end: each call is a step with the registers that the caller chose, as the
//! definition says (`specs/Steps.antt`), and keeps that the lines so far simulate the trace so far, for every numbers of
//! values and whatever operations do (`specs/Walked.antt`, over the walk by names of `lir_core`). A policy chooses; it
//! proves nothing about numbers or contents. The lemmas on steps are in `proofs/` for the policies' own proofs.
#![tactic(auto)]

mod arguments;
mod forward;
mod homes;
mod part;
mod registers;

pub use arguments::{argument_moves, has, place_of};
pub use forward::Forward;
pub use homes::Homes;
pub use part::Part;
pub use registers::{Registers, has_register, lowest_empty, register_of};
