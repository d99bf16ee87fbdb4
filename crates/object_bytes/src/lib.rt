//! Objects in memory: where the scalars of a type stand in its bytes, and what it means that bytes hold a store of objects.
//!
//! The trees of `object_nodes` say what types take, in two widths by one parameter: eight bytes for every scalar, or one for
//! the small ones. A store is
//! functions of numbers of objects and cells (specs/Objects.antt); `Kept` says that a memory has each cell's number where
//! its object is placed. The laws say what stores, new objects, returns, zeros and copies make of that.
#![tactic(auto)]

mod laws;

pub use laws::{
    copies_keep, layouts_fit, new_objects_keep, pointers_are_objects, returns_keep, stores_keep,
    texts_are_read,
};
