//! From valid procedures to their image.
//!
//! Selection, traces, allocation by the policy that is chosen, the moves of edges, and linking, one after the other.
#![tactic(auto)]

mod fault;
mod imaging;
mod joining;
mod making;
mod numbers;
mod outcome;

pub use fault::ImageFault;
pub use flow_allocation::{Builder, Choice, Flow, Policy};
pub use image_form::Image;
pub use imaging::{LinkedProcedures, image_of, select_all};
pub use joining::{Planned, plan_outcomes};
pub use link_plan::{ImageData, ProcName};
pub use making::{FlowWords, MadeFlow, make_flow};
pub use numbers::read_nodes;
pub use outcome::{Outcome, outcome_of};
pub use ssa_core::Proc;
