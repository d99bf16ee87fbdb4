//! Allocation for trivial traces.
//!
//! A trivial trace is one node without parameters and operations that ends with a jump, as on an edge that was split. All
//! that is live into it stands at its start and its end where the hint has it (`specs/trivial/Trivial.antt`), so no line is
//! needed, and the result is sound. It is what linear scan would give, without tables of needs.

mod allocating;
mod living;

pub use allocating::trivial;
