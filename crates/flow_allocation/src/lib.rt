//! Flows in traces with final results, in lines.
//!
//! The traces of all flows, which are numbered through all flows, are the work of a pool; the workers' final results are those of one
//! worker that takes traces in the order of their numbers, however many worked. Of each flow come then its results, and its code in
//! lines, with the moves of every edge. A flow alone has the same of the thread that calls.
#![tactic(auto)]

mod allocating;
mod alone;

pub use allocating::{AllocatedFlows, allocate_flows};
pub use alone::{AllocatedFlow, allocate_flow};
pub use boundary_resolve::CodeLine;
pub use lir_core::{Flow, TraceOut};
pub use trace_work::{Builder, Choice, Policy, WorkFault};
