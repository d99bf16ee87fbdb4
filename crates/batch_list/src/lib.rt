//! The list of a batch: a line for each job.
//!
//! A line has the submitter, `0` or `1`, and behind it, once or more, one blank and a file's name; it ends by byte 10. `read_list`
//! gives the lines, or the number of the first that isn't of this form (`specs/Form.antt`).
#![tactic(auto)]

mod line;
mod lines;
mod parts;

pub use line::JobLine;
pub use lines::{ListFault, read_list};
