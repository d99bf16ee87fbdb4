//! How many words each line of a procedure's code has.
//!
//! `line_widths` gives them for a plan, in the order of the code: what stands before the blocks, and then for each block its
//! operations, each with the copies before it, and its end. Together they are all words of the procedure
//! (`widths_make_the_procedure`), so each part's words stand behind those of the parts before it.
#![tactic(auto)]

mod laws;
mod widths;

pub use laws::widths_make_the_procedure;
pub use link_blocks::Plan;
pub use link_layout::LayoutFault;
pub use widths::line_widths;
