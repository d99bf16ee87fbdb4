//! Notes: the results of allocators for all traces, as the bytes of a file.
//!
//! Notes are the mark `TRC64NOT` and the list of results in plain form (`plain_form`). `write_notes` gives them, `read_notes`
//! reads them again, or names the first rule that other bytes break, with the place (`specs/Notes.antt`).
#![tactic(auto)]

mod fault;
mod reading;
mod writing;

pub use fault::NoteFault;
pub use reading::read_notes;
pub use writing::write_notes;
