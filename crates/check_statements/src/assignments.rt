//! Assignments, and the expressions that statements have (Oberon-07 report, sections 9.1, 9.2, 9.8 and 10.1).
//!
//! Each function's clause says that its answer is the judgement's: the statement that it comes to, or the first rule that
//! is broken.

mod assigned;
mod guards;

pub use assigned::assignment;
pub use guards::{answer, condition, control_variable, number, step};
