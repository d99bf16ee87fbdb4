//! The code of a procedure in lines: its nodes, what allocators wrote for them, and the moves of every edge.
//!
//! An edge moves values from where they are behind a node to where the next node wants them before it. Its moves stand
//! before a jump, or at the head of the target of a test, which has no other predecessor. The moves of most edges are found
//! in one walk over places (`near`), those of an edge with many parameters by tables.
#![tactic(auto)]

mod code;
mod code_line;
mod laws;
mod moves;
mod near;
mod resolving;
mod seats;

pub use code_line::CodeLine;
pub use laws::{edges_hold, moves_take_over, nodes_are_sound};
pub use lir_core::{Flow, Line, Move, Place, Places, Trace, TraceOut};
pub use moves::edge_moves;
pub use parallel_move::Step;
pub use resolving::resolve;
