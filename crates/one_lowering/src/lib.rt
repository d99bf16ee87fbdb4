//! Programs of one form have one lowering.
//!
//! The judgement gives a program but for the numbers of its types, and for what else a checked tree holds and its image doesn't.
//! Lowering reads none of that: it is a function of the form (specs/Forms.antt), if uses of strings are numbered in order
//! (specs/Order.antt).
#![tactic(auto)]

mod laws;

pub use laws::{forms_have_one_lowering, ordered_programs_have_one_form, shapes_have_one_size};
