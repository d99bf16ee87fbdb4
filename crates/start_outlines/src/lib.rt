//! The outlines of modules' programs where more modules are judged.
//!
//! A pointer type stands in the outline of a procedure by the record type that it points to. `outlines_stay`: where the judgement
//! accepts some modules and then more, the outline of what it gives of all begins with the outline of what it gives of the first
//! ones, since each procedure names only pointer types that there were when it was complete.
#![tactic(auto)]

mod laws;

pub use laws::outlines_stay;
