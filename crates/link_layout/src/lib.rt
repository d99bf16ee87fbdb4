//! Code that lays linked code out: how many words each part has, which homes a procedure has, and where procedures begin.
//!
//! Each call gives exactly what `placed_code` defines: widths depend on no place, and a procedure begins behind the start, the
//! routines, and the procedures with lower numbers. An image has at most 262,144 words.
#![tactic(auto)]

mod blocks;
mod copies;
mod fault;
mod frames;
mod homes;
mod laws;
mod starting;
mod widths;

pub use blocks::{block_places, end_of, procedure_width};
pub use copies::{Copy, Spot, copies_width};
pub use fault::LayoutFault;
pub use frames::{end_width, epilogue_width, prologue_width};
pub use homes::{Ranks, add_homes};
pub use laws::homes_are_those_of_copies;
pub use starting::entries;
pub use widths::operation_width;
