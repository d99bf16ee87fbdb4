//! Whether a procedure is valid, found out in nearly linear time.
//!
//! `is_valid` is true exactly where `IsValid` of `ssa_core` holds. What is seen at one place of a procedure is tested there
//! (`form.rt`); that each value is made once, by counting (`makers.rt`); that nothing is read in a block before the block
//! makes it, by the block that last read each value (`order.rt`); and that nothing is live into the first block, by a
//! search for each value from the blocks that read it back over the edges (`search.rt`).
#![tactic(auto)]

mod form;
mod lists;
mod makers;
mod order;
mod search;
mod stamps;
mod validity;

pub use validity::is_valid;
