//! Checked trees, put together part by part.
//!
//! A checked tree keeps what the grammar repeats as lists: links behind a value, selectors behind a variable. The
//! functions here add one part at a time, and say of what they make which image it has (`plain_expr` and its kin), for
//! every table of types and all uses of strings.

mod places;
mod values;

pub use places::Place;
pub use values::{Value, apply, as_byte, call, compare, compare_texts, is_in, is_pointer, linked};
