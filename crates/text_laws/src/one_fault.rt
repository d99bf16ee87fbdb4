//! The texts of some modules come to one thing.
//!
//! They are a program, or there is one fault that comes first: one module, one rule, one byte; and never both.

mod laws;

pub use laws::texts_have_one_first_fault;
