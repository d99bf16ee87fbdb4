//! The instructions of the A64 table, as a type that no other value has.
//!
//! An instruction has one variant for each row of the table, and each field is a number of its own width,
//! so that a value that is no instruction can't be made. The table itself, with its words, stands in
//! `a64_table`; what each instruction does to registers, flags and memory stands in `a64_machine`.
#![tactic(auto)]

mod bits;
mod instr;

pub use bits::Bits;
pub use instr::{Cond, Instr, Reg, Shift};
