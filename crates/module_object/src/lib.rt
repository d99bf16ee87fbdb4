//! The object of a program's last module.
//!
//! `module_object` reads and judges the modules of a program, lowers them, and gives registers to the procedures of the last module
//! alone: their results have the numbers that they have in the whole program. `own_results` does so for a program. Of the traces of
//! the modules before there is only their count (`specs/Objects.antt`).
#![tactic(auto)]

mod counting;
mod making;
mod results;

pub use making::module_object;
pub use object_form::Object;
pub use planned_image::image_words;
pub use planned_image::image_words::{Builder, Choice, Policy, ProgramFault, Refusal};
pub use results::own_results;
