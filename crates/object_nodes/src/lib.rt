//! What a designator names is a node of its object's tree.
//!
//! The tree of a type (specs/Trees.antt) has its elements, its fields and the base parts of its records as nodes, each so many
//! cells and so many bytes on. Two nodes of one tree are nested or lie apart, and two of one type are one or lie apart
//! (`nodes_meet`). What a designator of a well-formed program names is such a node, and so is what an argument hands over
//! (`designators_name_nodes`); so both sides of a copy are one or apart, and its cells are copied at once
//! (`copies_are_at_once`).
#![tactic(auto)]

mod laws;

pub use laws::{
    copies_are_at_once, designators_name_nodes, nodes_meet, nodes_stand_apart, trees_are_types,
    trees_take_bytes, types_take_bytes, variables_meet,
};
