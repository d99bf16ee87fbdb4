//! From the texts of modules to the program that they are (Oberon-07 report, section 11).
//!
//! `source_program` reads each module's text and judges it behind those before, module after module. What the texts come to is
//! a definition (`specs/Texts.antt`): the program that the judgement gives of the modules that they are read as, or the first
//! rule that is broken, by its module, its number and its place. A program that is given is well-formed.
#![tactic(auto)]

mod fault;
mod module;
mod program;

pub use fault::SourceFault;
pub use program::source_program;
