//! The form of the program of the first of some modules.
//!
//! Where the judgement accepts some modules and then more, the form of the program that the first ones are is the start of the form
//! of the program that all are: it has the first record types and the first procedures of the other, and these name no other record
//! types. So it is lowered to procedures alike the first ones of the other (`moved_lowering`). What record types a form names is
//! said by well-formedness (`proofs/Named.antt`, `Statements`).
#![tactic(auto)]

mod laws;

pub use laws::starts_have_forms;
