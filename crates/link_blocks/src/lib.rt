//! Selected procedures whose values have places, as blocks of cells: an operation with the copies before it, and its
//! registers.
//!
//! `Plan::of` takes a procedure's lines in code order, as `boundary_resolve` gives them, and the registers that allocators
//! named. What it makes is the placed procedure that `linked_flows` defines, but for what has no words: the values that
//! operations read and make, the parameters of blocks, and the arguments of jumps.
#![tactic(auto)]

mod blocks;
mod fault;
mod fits;
mod planning;
mod plans;
mod reading;

pub use fault::PlanFault;
pub use fits::{number_fits, numbers_fit, registers_fit};
pub use link_layout::{Copy, Ranks, Spot};
pub use link_words::{Frame, Registers};
pub use plans::{Block, Cell, Plan};
