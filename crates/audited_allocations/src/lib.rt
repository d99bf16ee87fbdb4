//! The audit passes what the policies give, and what passes can be placed.
#![tactic(auto)]

mod laws;

pub use laws::{allocations_have_notes, allocations_pass, walked_results_can_be_placed};
