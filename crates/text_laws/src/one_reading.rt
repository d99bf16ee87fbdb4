//! The text of a module has one reading.
//!
//! It has one list of symbols and one syntax, or there is one rule that it breaks first, at one byte, and never both.

mod laws;

pub use laws::texts_are_read_once;
