//! What numbers mean that the program tells: faults of modules, limits, traps of runs, rules of images, notes and objects. Each has a
//! page, with an example that gives it and the mended example; `explanation` gives the text that is printed.
//!
//! The pages stand as data in a module for each kind. The document `EXPLAIN.md` in the data of `trc_runs` holds the same texts:
//! that program holds it against these, and tries each example. `specs/Explained.antt` says which texts are printed,
//! `specs/Entries.antt` how a page is laid out.
#![tactic(auto)]

mod entry;
mod explaining;
mod faults;
mod format;
mod image_rules;
mod kind;
mod limits;
mod notes_rules;
mod object_rules;
mod topic;
mod traps;
mod usage;

pub use entry::Entry;
pub use explaining::{explanation, has_page, page};
pub use faults::fault_entry;
pub use format::Format;
pub use image_rules::image_rule_entry;
pub use kind::{Kind, PAGES, entry_of};
pub use limits::limit_entry;
pub use notes_rules::notes_rule_entry;
pub use object_rules::object_rule_entry;
pub use topic::Topic;
pub use traps::trap_entry;
