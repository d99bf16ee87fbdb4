//! Lowering of statements: the walk over their tree.
//!
//! `statements` appends, to a procedure in the making, exactly the code that `ssa_lowered` defines of a list of statements,
//! number by number, or notes the limit that it passes first: its clause says so by `Steps`. Here stand the loops over branches,
//! guards and parts of CASE.

mod joins;
mod rungs;
mod walk;

pub use walk::statements;
