//! The law of linking: `link` of the objects of all modules of a program writes the image that is built of the modules.
//!
//! It is said of what `link` comes to when nothing fails (`object_commands`); what is linked of objects whose results are the
//! program's is said in `object_laws`.
#![tactic(auto)]

mod laws;

pub use laws::links_write_what_is_built;
