//! A procedure's statements and answer with their final numbers.
//!
//! While statements are judged, a tree names a string by its number among all strings of its scope. A finished procedure
//! numbers its uses of strings as arrays by their order in the tree, and lists their characters. `renumbered` takes the
//! statements and the answer and gives them back so numbered, with that list. It also replaces each number of a type
//! that isn't in the table by one that means the same, so that what it gives means the same once the table has grown.

mod expressions;
mod numbers;
mod renumbering;
mod statements;

pub use renumbering::{Numbered, renumbered};
