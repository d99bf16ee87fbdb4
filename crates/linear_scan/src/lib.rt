//! Linear scan along a trace.
//!
//! `allocate` goes over a trace once: each use is brought into a register, where none is empty the value is given up whose
//! next need is farthest, and values without a need lose their places (Poletto and Sarkar, 1999; on traces Eisl and others,
//! 2016). Its result is exactly the defined one (`specs/Linear.antt`), for every hint that is fit, and sound. The code
//! looks only at what an operation mentions to find what is dead: all other values with places have a need.
#![tactic(auto)]

mod allocating;
mod choosing;
mod laws;
mod policy;
mod starting;

pub use allocating::allocate;
pub use laws::ends_are_fit;
