//! The traces of flows as a work for the pool.
//!
//! `TraceWork::new` cuts flows into traces, which are numbered through all flows, each flow's behind those of the flow before. A
//! trace's final result is that of the policy that is used for it, with the hint that the final result of the trace above it gives
//! (Eisl, Leopoldseder, Mössenböck: Parallel Trace Register Allocation, ManLang 2018). `specs/Finals.antt` says which that is,
//! whoever finds it and whenever.
#![tactic(auto)]

mod fault;
mod hints;
mod places;
mod planning;
mod results;
mod work;

pub use alloc_choice::{Builder, Choice, Policy};
pub use fault::WorkFault;
pub use lir_core::{Flow, TraceOut};
pub use planning::TracePlan;
pub use work::{MOST_TRACES, TraceWork};
