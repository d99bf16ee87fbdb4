//! Arguments judged.
//!
//! A `Given` is an argument that has been walked, with the symbol that it begins with. Each function's clause says that
//! its answer is the judgement's: the argument that its parameter gets, or the first rule that is broken.

mod arguments;
mod calls;

pub use arguments::{Given, bound, is_chars, may_assign, stored};
pub use calls::called;
