//! Designators judged, one selector after the other, each when its own parts have been walked.
//!
//! A `Stage` is what a designator has come to: a name alone, a variable or a part of one, or a call. `IsStage`
//! (`specs/Stages.antt`) says which stage of the judgement it is. Each function's clause says that its answer is the
//! judgement's.
#![tactic(auto)]

mod begun;
mod lists;
pub mod parts;
mod selectors;
mod stage;
pub mod standard;
mod tests;

pub use begun::{Begun, begin, constant_operand, finished, operand_of};
pub use lists::{called_last, element_of, guarded_by, is_procedure, standard_last};
pub use selectors::{select_arrow, select_empty_parens, select_field};
pub use stage::{Stage, module_of, standard_of};
pub use tests::type_test;
