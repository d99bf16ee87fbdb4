//! The symbols of a tree: `text_symbols` lists the indices of a module's terminals, in order.
//!
//! It takes a tree of `ob_syntax`, whose types this crate hands on, and gives what `specs/ModuleText.antt` there says
//! that the tree spells. One function for each type walks a value of it.
#![tactic(auto)]

mod symbols;

pub use ob_syntax::{declarations, expressions, modules, names, statements, types};
pub use symbols::text_symbols;
