//! Where a program's variables, fields and strings stand.
//!
//! The meaning adds these places up at each use. A `LaidProgram` has them in tables that are made once; contracts see
//! the program alone, so what they say is what the meaning says.
#![tactic(auto)]

mod first;
mod program;
mod row;
mod rows;
mod sizes;

pub use program::LaidProgram;
