//! Modules judged, one after the other (Oberon-07 report, section 11).
//!
//! `check_module` judges a module behind those before: its name, its imports and declarations, its body and the name behind
//! END. Its clause `judged` says that its answer is the judgement's, from all modules so far that the state stands for.
#![tactic(auto)]

mod bodies;
mod checking;
mod declarations;
mod declaring;
mod ending;
pub mod importing;
pub mod programs;

pub use checking::check_module;
