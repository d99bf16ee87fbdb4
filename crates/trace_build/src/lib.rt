//! Traces: the paths along which a procedure's values are given places.
//!
//! `build` cuts a flow into traces, each node in one: as long as nodes are unassigned, the most frequent of them begins a
//! trace, which grows along edges over unassigned nodes, always to the most frequent (Eisl and others, 2016). What it
//! gives is the definition's (`specs/Traces.antt`); that each is a path and that they are a partition follows and is said
//! beside it. `parents` gives the trace whose result is a trace's hint. Allocators use both.
#![tactic(auto)]

mod builder;
mod cutting;
mod entering;
mod frequency;
mod growing;
mod ranks;

pub use builder::Builder;
pub use cutting::build;
pub use entering::parents;
pub use lir_core::Trace;
