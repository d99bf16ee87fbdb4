//! Flows whose data stand elsewhere have the same traces and the same results.
//!
//! The number that `Global` has says where a module's variable, a descriptor or a string stands, and differs where a program has more
//! modules. Two flows are alike if they differ in these numbers alone. Nothing that leads to results reads them: neither how traces
//! grow, nor what is live, nor any policy.
#![tactic(auto)]

mod laws;

pub use laws::{alike_flows_have_one_cut, alike_flows_have_one_live, alike_flows_have_one_result};
