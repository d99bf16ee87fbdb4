//! Expressions judged: the walk over their tree.
//!
//! `expression`, `designator` and the functions between go down the tree in the order of the text and put together what
//! the layers below judge of each part. The clause of each says that its answer is the judgement's of the same tree's
//! syntax: the operand that it comes to, or the first rule that is broken and its place. What the grammar repeats is a
//! loop, so that the walk is as deep as the tree is nested.
#![tactic(auto)]

pub mod constants;
pub mod folding;
mod links;
mod steps;
mod walk;

pub use walk::{designator, expression, simple};
