//! The front of the compiler: from a module's bytes to its symbols and its tree, or to the first rule that they break.
//!
//! `read_module` puts the scanner and the parser together. What a text comes to is a definition (`specs/Texts.antt`): its
//! symbols and its tree, or a rule by its number, with the byte where it is broken.
#![tactic(auto)]

mod fault;
mod laws;
mod reading;

pub use fault::TextFault;
pub use laws::literals_fit;
pub use reading::{MOST_BYTES, ModuleText, read_module};
