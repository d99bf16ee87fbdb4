//! What is left to do of a program's meaning, as a list of tasks.
//!
//! A task is a part of the tree, or an act on the last values. What tasks do is said by the meaning's own words
//! (specs/Tasks.antt), and for each part of the tree it is proved that it does what the tasks do that it is made of
//! (`proofs/`): what is left of the meaning stays the same while one takes the place of the other. Each part weighs more
//! than these tasks (specs/Weights.antt), so that a turn is spent after some of them.
#![tactic(auto)]

mod stack;
mod task;

pub use stack::Stack;
pub use task::{Act, Branching, Stage, Task, Typing};
