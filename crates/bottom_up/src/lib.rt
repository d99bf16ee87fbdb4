//! Bottom-up allocation along a trace.
//!
//! `allocate` goes over a trace once, from its end to its start: a definition is made where its value is wanted, each use
//! takes a register, and where none is empty the value is given up that was mentioned earliest; it is homed and loaded
//! again behind the operation (Eisl and others, 2017). Its result is exactly the defined one (`specs/Bottom.antt`).
#![tactic(auto)]

mod allocating;
mod choosing;
mod ends;
mod homing;
mod policy;

pub use allocating::allocate;
