//! Stores in memory, by byte and width.
//!
//! `specs/Places.antt` says where the variables of a store's objects, its tags and descriptors stand, in a layout of either width;
//! `specs/Held.antt` what it means that memory holds a store, and that an address is a part's. `specs/First.antt` how it begins.
//! Stores of scalars, copies, new objects and calls' objects keep it so.
#![tactic(auto)]

mod laws;

pub use laws::{
    calls_keep, copies_keep, first_stores_are_held, new_objects_keep, parts_are_one_or_apart,
    parts_stand, scalars_are_cells,
};
