//! Operators, relations and literals judged, each when its operands have been walked.
//!
//! Each function takes operands that stand for the judgement's, and its clause says that its answer is the judgement's:
//! the operand that it comes to, whose tree has the image that the judgement says, or rule 31 (or 32) at the operator.

mod literals;
mod operators;
mod relations;
mod rows;

pub use literals::{literal, text_literal, value};
pub use operators::{inverted, joined, signed};
pub use relations::{compared, is_in, related, set_element};
pub use rows::Operator;
