//! Declarations judged (Oberon-07 report, sections 5 and 7).
//!
//! Each function is a part of the judgement on the state between declarations (check_making): its clause `judged` says that
//! from each state of the judgement that the code's stands for, its answer is the judgement's, and what the state then stands
//! for is what that leaves. It asks for a settled state, and leaves one.
#![tactic(auto)]

mod constants;
mod one_variable;
mod string_places;
pub mod type_parts;

pub use constants::{const_decl, const_decls};
pub use one_variable::variable;
