//! Which variables have their addresses made.
//!
//! A scalar variable whose address is made is in memory, and every other is in a register. So these are found before a
//! procedure is lowered. Each call adds to a list, with repetitions, the variables whose addresses `ssa_lowered` says a part
//! of the tree makes: arrays and records that are more than read as a whole, VAR arguments, and that of In.Char.

mod expressions;
mod statements;

pub use expressions::lend;
pub use statements::{lend_all, lend_in_body};
