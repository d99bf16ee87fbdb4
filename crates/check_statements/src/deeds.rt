//! Assignments and calls that are statements (Oberon-07 report, sections 9.1 and 9.2).
//!
//! Each function's clause says that its answer is the judgement's: the statement that it comes to, or the first rule that
//! is broken.

mod calls;

pub use calls::assign_or_call;
