//! Lowering of statements: their code, appended to a procedure in the making.
//!
//! `statements` is the walk over their tree (`src/walk.rt`). Statements without blocks of their own are functions whose clauses
//! say, by `Steps` (`specs/Steps.antt`), that exactly the code that `ssa_lowered` defines was made, or which limit it passes
//! first. Of statements with blocks there are the jumps to joins and headers (`src/control.rt`), the tests of CASE
//! (`src/cases.rt`), and laws that put their parts together (`src/laws.rt`).
#![tactic(auto)]

mod cases;
mod control;
mod homes;
mod laws;
mod simple;
mod walk;

pub use laws::{
    cases_are_made, choices_are_made, guards_are_made, loops_are_made, repeats_are_made,
};
pub use walk::statements;
