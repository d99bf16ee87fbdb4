//! The outside, as the program sees it, and the answer for want of memory.
//!
//! Four traits say what files, a source of input, a sink of output and a gate of workers do: what they tell of
//! themselves, and that a fault comes only where the device's count of faults rose. `write_all` and `read_all`
//! go over a sink and a source to the end. The layers above use the clauses of these traits and calls, in the
//! words of `specs/`: what a sink took (`TookAll`, `TookFront`, `TookNothing`), what a source gave (`Gave`).
#![tactic(auto)]

mod files;
mod gate;
mod memory;
mod reading;
mod sink;
mod source;
mod writing;

pub use files::{Files, GetFault, PutFault};
pub use gate::{Gate, OpenGate};
pub use memory::Memory;
pub use reading::{InFault, read_all};
pub use sink::Sink;
pub use source::{Failed, Source};
pub use writing::{WriteFault, write_all};
