//! Lines in the order of the code.

use lir_core::Line;
use parallel_move::Step;

/// A line of a procedure's code, in code order. What stands before the first node are the steps of the entry's edge. Each
/// node has its mark, the steps of the edge from a test, its lines, the steps of its jump's edge, and its end.
#[derive(Drop)]
pub enum CodeLine {
    /// A node begins.
    Node(u32),
    /// A line of the node.
    Body(Line),
    /// A step of an edge.
    Edge(Step),
    /// The node's end.
    Leave(u32),
}
