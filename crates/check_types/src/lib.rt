//! Types as the checker works with them, and what is known of them.
//!
//! A `TypeRef` is small: the parts of an array or procedure type are numbers in the table of types that the program gets.
//! `type_shape` (`specs/TypeMeaning.antt`) says what it means to the judgement, `known_of` what a `TypeTable` knows of
//! record and pointer types. Each test of the judgement on types is a function here, and its clause says that it is that
//! test: sameness, extension, assignability, what may name what, and the tables of operators.
#![tactic(auto)]

mod fields;
mod kinds;
pub mod names;
mod operators;
mod sameness;
pub mod steps;
mod table;
mod tests_of_types;
mod types;

pub use fields::{FieldEntry, Fields};
pub use table::{Added, Layout, TypeTable};
pub use types::TypeRef;
