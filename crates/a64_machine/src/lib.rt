//! The A64 machine: registers, flags and memory, and what each instruction does to them.
//!
//! `Machine::load` lays an image out in memory, `Machine::step` fetches, decodes and carries out one word,
//! and `Machine::run` makes at most so many steps. The definitions stand in `specs/`: the state, each
//! instruction's effect, the services, and the step. The layers above use the clauses of these three
//! calls and the laws in `proofs/`.
#![tactic(auto)]

mod answers;
mod code;
mod execute;
mod groups;
mod layout;
mod machine;
mod processor;
mod service;
mod text;

pub use answers::{Halt, Step};
pub use execute::service_number;
pub use machine::Machine;
pub use processor::Core;
