//! Modules by their names (Oberon-07 report, section 11).
//!
//! `imports` judges the imports of a module, one after the other: 36 where a name stands twice, 38 at the name of no module
//! before. `is_new` tells whether a module's name is free, `known_module` is what the modules behind this one see of it.

mod ends;
mod finding;
mod importing;

pub use ends::known_module;
pub use finding::{imported, is_new};
pub use importing::imports;
