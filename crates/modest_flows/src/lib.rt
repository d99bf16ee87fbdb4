//! Modest flows fit instructions.
//!
//! A home belongs to a value that is in range, whichever sound results a flow's traces have; so a flow has a frame of at most
//! 21 slots more than it has values, and where it has no more values than a procedure may have, linking doesn't refuse it for its
//! frame.
//!
//! A flow is modest that has no more values than that, less than 2^24 bytes of local data and traps whose kinds have 16 bits. With
//! sound results by 4 to 16 registers its numbers, registers and frame fit instructions, so linking refuses none.
#![tactic(auto)]

mod laws;

pub use laws::{modest_flows_fit, small_flows_have_small_frames};
