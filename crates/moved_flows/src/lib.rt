//! The flows of programs whose data stand elsewhere.
//!
//! Two procedures in blocks that differ in the numbers of `Global` alone have flows that differ in these alone: their nodes, new nodes
//! on edges and predecessors come from the ends of blocks. So a program whose form is the start of another's has flows alike the first
//! ones of the other's, and as many traces as these by each builder.
#![tactic(auto)]

mod laws;

pub use laws::{
    alike_flows_have_one_count, alike_procedures_select_alike, starts_have_alike_flows,
};
