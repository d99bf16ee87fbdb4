//! Which values are live into each node of a flow.
//!
//! `live` gives rows of bits: value v is in the row of node n exactly where a path of edges leads from the start of n to
//! a read of v, with nothing on it that makes v. The rows are filled value by value: from each read back over the edges,
//! up to the node that makes the value or one that has it already, so each node is looked at once for each value that is
//! live into it, however loops are nested (Brandner, Boissinot and others, 2011: exploring paths one value at a time).
//! Allocators need the clause of `live` alone; `read_on_paths` says what being live comes to along paths.
#![tactic(auto)]

mod laws;
mod liveness;
mod makers;
mod rows;
mod search;

pub use laws::read_on_paths;
pub use lir_core::LiveSets;
pub use liveness::live;
