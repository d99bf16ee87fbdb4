//! The values of constant expressions are what they mean.
//!
//! The judgement finds the value of a constant expression by a recursion of its own. Where it finds one, the meaning gives it; where
//! it finds none, the expression traps when it is evaluated, or is none that may stand in a constant.

mod laws;

pub use laws::constants_are_meant;
