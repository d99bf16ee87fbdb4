//! Allocators that choose nothing: `plain` keeps every value in its home, and `trivial` leaves all that is live where the
//! hint has it, for traces that need no line.
#![tactic(auto)]

pub mod plain;
pub mod trivial;
