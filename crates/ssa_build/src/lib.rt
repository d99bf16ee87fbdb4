//! Lowering of whole programs: each procedure's beginning and end, its blocks, and the limits that are passed.
//!
//! `lower` makes exactly the procedures that `ssa_lowered` defines, in the layout in use, or tells the limit that the
//! definition says is passed first; `lower_with_tables` gives the tables too, by which constants are made, and
//! `lower_procedure` makes any one procedure by these tables. A procedure begins with its arguments, what is zeroed, and the
//! first values of its variables (`src/entry.rt`); then its statements are walked (`ssa_statements`), and labels get their blocks
//! (`src/finish.rt`).
#![tactic(auto)]

mod body;
mod entry;
mod finish;
mod laws;
mod lowering;
mod procedure;

pub use laws::data_is_within_limits;
pub use lowering::{LoweredProgram, lower, lower_with_tables};
pub use procedure::lower_procedure;
