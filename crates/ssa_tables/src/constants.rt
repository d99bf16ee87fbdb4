//! The bytes of a program's constants: the record types' descriptors, then its strings, procedure by procedure.
//!
//! They stand behind the globals, at the places that the tables of lowering say, and are those that `ssa_lowered` defines:
//! a character takes one byte, and each string begins at a multiple of 8. A descriptor has sixteen cells of eight bytes, the
//! addresses of the descriptors of the types that its type extends, by their levels, up to its own.

mod bytes;
mod descriptors;
mod laws;

pub use bytes::program_constants;
pub use laws::{constants_are_counted, globals_are_counted};
