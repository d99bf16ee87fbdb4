//! An audit of allocations, whoever made them.
//!
//! `audit` walks through the lines of each result by the names of values, and tells the first failure by trace, node and
//! line, or that there is none. What fails is a definition that computes (`specs/Tests.antt`, `Nodes`, `Verdicts`); the code
//! is equal to it. `verdict_is_exact`: no failure is told exactly where the walk of `lir_core` accepts all results, so that
//! they are sound.
#![tactic(auto)]

mod auditing;
mod destinations;
mod laws;
mod node;
mod places;
mod results;
mod room;
mod values;
mod verdict;
mod walk;

pub use auditing::audit;
pub use laws::verdict_is_exact;
pub use verdict::Verdict;
