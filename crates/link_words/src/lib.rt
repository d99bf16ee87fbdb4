//! Code that appends the words of placed code: of copies, operations, entries and ends.
//!
//! Each call appends exactly the words that `placed_code` defines, or says that memory ran out. Fields come as numbers of so
//! many bits, so that each word is one of the table; where a number must fit, the call asks for it.
#![tactic(auto)]

mod ends;
mod frames;
mod laws;
mod operations;
mod pushing;
mod shapes;
mod slots;

pub use ends::{Where, push_copy, push_end};
pub use frames::{Frame, push_epilogue, push_prologue};
pub use laws::words_are_placed;
pub use operations::{Registers, push_operation};
pub use slots::is_near;
