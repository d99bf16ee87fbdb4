//! Which variables statements assign.
//!
//! A join's parameters are the register variables that are assigned before it, and jumps to it are made before it is: so
//! these are found before a statement with blocks is lowered. Each call adds the variables that `ssa_lowered` says its
//! statements assign as wholes, in the order of the tree. How far down the branches of IF each of them is assigned is found once,
//! for all branches.
#![tactic(auto)]

mod assigned;
mod branches;
mod joins;

pub use assigned::{
    note, note_all, note_base, note_cases, note_parts, note_types, note_unselected, note_whole,
};
pub use branches::{lasting, still_assigned};
pub use joins::registers;
