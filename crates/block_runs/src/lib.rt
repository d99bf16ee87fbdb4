//! What code in blocks means, before its values have places: one system for procedures and for flows.
//!
//! Procedures in SSA form and selected flows have in common numbered blocks with parameters, operations that read values
//! and may make one, and an end of each block. The system over that view stands here: its state, its steps, its points,
//! its faults and traps (`specs/`). The layers above give their types a view (`specs/Blocks.antt`) and cite
//! `block_system`; the layer below carries out its steps by machine words.
#![tactic(auto)]

mod code;
mod end;
mod numbers;

pub use code::Code;
pub use end::End;
pub use numbers::Numbers;
