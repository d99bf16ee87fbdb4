//! What is known behind some modules, and the program of them (Oberon-07 report, section 11).
//!
//! `StandsForModules` (`specs/programs/Modules.antt`) says which modules so far of the judgement the state stands for. `no_modules`
//! stands for none. `module_with` is a module as the program has it, with its names by numbers of types and by places of strings;
//! it stays the judgement's whatever types are made later. `into_program` gives the program of all modules, which is the
//! judgement's as far as a checked tree tells.

mod modules;
mod objects;
mod own;
mod programs;

pub use modules::{Modules, no_modules};
pub use own::module_with;
pub use programs::into_program;
