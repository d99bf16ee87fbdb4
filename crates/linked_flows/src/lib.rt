//! Flows cut into traces, with the results of allocators for them, as placed procedures.
//!
//! `specs/` says how a trace's results and the steps of edges become the parts that `placed_code` puts into words. The law
//! `flows_run` says that the machine that runs the image carries out the flows, whichever sound results their traces have:
//! nothing in it knows how a trace was allocated.
#![tactic(auto)]

mod laws;

pub use laws::flows_run;
