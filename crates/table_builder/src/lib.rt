//! The table of types while declarations are judged.
//!
//! A `TableBuilder` keeps a `TypeTable` and, of each type, its number and how many elements it has that are no arrays: so
//! each type gets one number, and neither looking it up nor counting its cells takes a pass over the table. `IsBuilt`
//! (`specs/Builder.antt`) says that all agree. What each call leaves is said in three
//! words: `Grows` (`specs/Growing.antt`), that every type has the number and the meaning that it had; what `known_of` says of
//! the table, which is the judgement's knowledge of record and pointer types; and the shape of the type that is given.
#![tactic(auto)]

mod blanks;
mod builder;
mod cells;
mod elements;
mod entries;
mod extents;
mod numbers;
mod parts;
mod records;
mod start;

pub use blanks::blank_layout;
pub use builder::TableBuilder;
pub use cells::{MOST_CELLS, capped};
pub use extents::{counted, rounded, with_part};
