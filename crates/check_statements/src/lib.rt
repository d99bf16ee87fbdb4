//! Statements judged: the walk over their tree (Oberon-07 report, section 9).
//!
//! `statements` and the functions below it go down the tree in the order of the text. The clause of each says that its
//! answer is the judgement's of the same tree's syntax: checked statements that stand for those it comes to, or the first
//! rule that is broken and its place. What the grammar repeats is a loop, so that the walk is as deep as statements are
//! nested. `body_of` is a body behind BEGIN, where there is one.
#![tactic(auto)]

pub mod assignments;
mod bodies;
pub mod cases;
pub mod deeds;
mod heads;
mod parts;
mod puts;
pub mod ranges;
pub mod steps;
pub mod syntax;
pub mod trees;
mod walk;

pub use bodies::body_of;
pub use walk::statements;
