//! The operators of the meaning, on 64-bit numbers.
//!
//! Each function has the word of the meaning for its clause. What gives a value to an expression takes them: the
//! checker for constant ones.
#![tactic(auto)]

mod operators;
mod sets;

pub use operators::{binary, elements, has, holds, is_byte, is_element, related, truth, unary};
pub use sets::{as_byte, is_in, with_element, with_elements};
