//! Flows. Nodes and values go by their numbers in the flow, from 0 on.

use block_runs::{Code, End, Numbers};
use items::Items;

/// An operation: what it does, the values that it reads, in order, the value that it makes, and whether it is a call, which
/// leaves nothing in registers.
#[derive(Drop)]
pub struct Lir {
    pub template: Code,
    pub uses: Numbers,
    pub def: Option<u32>,
    pub call: bool,
}

/// A node.
#[derive(Drop)]
pub struct Node {
    /// The values that an edge into the node gives.
    pub params: Numbers,
    pub lirs: Items<Lir>,
    pub end: End,
    /// How often it is taken to run, where the procedure's entry runs 2^20 times.
    pub freq: u64,
    /// The nodes from which an edge leads here, rising, each once.
    pub preds: Numbers,
    /// The node that enters the loop, where this is a loop's header.
    pub enter: Option<u32>,
}

/// A procedure after selection: as a procedure, but no edge leads from a node with two successors to one with several
/// predecessors.
#[derive(Drop)]
pub struct Flow {
    pub nodes: Items<Node>,
    pub values: u32,
    pub args: u32,
    pub counted: bool,
    pub local_cells: u64,
    pub local_bytes: u64,
}

/// A path of one or more different nodes of a flow.
#[derive(Drop)]
pub struct Trace {
    pub nodes: Items<u32>,
}
