//! Which policy gives a trace its places.
//!
//! A `Choice` names a policy, how traces are cut, how many registers there are, and how many workers. `policy_of` says by what a
//! trace's result is made, and `allocate_trace` makes it (Eisl and others, 2017: a policy is chosen for each trace). The results of
//! all of a flow's traces, each with its hint, are defined in `specs/Results.antt`.
#![tactic(auto)]

mod allocating;
mod choice;

pub use allocating::allocate_trace;
pub use choice::{Choice, Policy, Used, policy_of};
pub use lir_core::{Flow, LiveSets, Places, Trace, TraceIn, TraceOut};
pub use trace_build::Builder;
