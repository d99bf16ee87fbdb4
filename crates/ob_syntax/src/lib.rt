//! The tree of a module: a type for each production of the grammar, what a tree spells, and its syntax.
//!
//! A terminal is the index of its symbol, an alternative a variant, an option an `Option`, a repetition a `Vec`;
//! the parts stand in the order in which they are read. `specs/ModuleText.antt` and the files that it cites say
//! what a tree spells: for each of its terminals what it is to be, and its index. `specs/Syntax.antt` has the same
//! trees without the memory that holds them, and `specs/Plain.antt` the syntax of a value: layers above define over
//! these. The laws: each tree is one of the grammar, and what is spelled determines the syntax.
#![tactic(auto)]

pub mod declarations;
pub mod expressions;
pub mod laws;
pub mod modules;
pub mod names;
pub mod statements;
pub mod types;
