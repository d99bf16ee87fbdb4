//! The laws of runs: what it means that a system that goes in steps keeps up with a meaning that is counted in turns.
//!
//! Definitions stand in specs/, and the laws in proofs/, as lemmas that the layers above cite. What can be said
//! without ranging over relations is a clause of a function here. The crate `countdown` is a worked instance.
#![tactic(auto)]

mod laws;

pub use laws::{
    carrying_out_keeps_up, keeping_up_is_in_step, layers_compose, runs_stay, walks_compose,
    weights_add,
};
