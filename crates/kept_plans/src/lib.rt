//! What is shown of flows beside their image: the plans from which it was made, and the traces above traces.
//!
//! `link_kept` gives the image that `link` of `link_plan` gives, but takes lines and results by reference, and hands out the plans,
//! for who shows which words a line has. `all_parents` gives the trace above each trace.
#![tactic(auto)]

mod linking;
mod parents;

pub use link_blocks::Plan;
pub use link_plan::{Image, ImageData, LinkFault};
pub use linking::{LinkedPlans, link_kept};
pub use parents::all_parents;
