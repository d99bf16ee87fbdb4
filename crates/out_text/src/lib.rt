//! The text that `Out.Int` writes: a 64-bit integer in decimal, after blanks up to a width.
//!
//! The definition stands in `specs/Text.antt`; the language's meaning, the machine's service and this
//! crate's function all cite it. `IntText::new` makes the text in a buffer of its own and takes no memory.
#![tactic(auto)]

mod text;

pub use text::IntText;
