//! Selection: from a procedure in blocks to a flow of operations as words carry them out.
//!
//! Every operation stays in its place. An edge from a block with two successors to one with several predecessors gets a
//! node of its own, so that moves of values have a place on every edge. `selected` (`specs/Selected.antt`) is the flow of a
//! procedure, and `select` makes it of one that is let go; `selection_carries` says that flows do, step by step, what their
//! procedures do.
#![tactic(auto)]

mod edge_splits;
mod edges;
mod laws;
mod selecting;

pub use laws::selection_carries;
pub use selecting::select;
