//! Operands: a checked expression with its type and what may be done with it.
//!
//! `Stands s o x` (`specs/Operands.antt`) says that the operand o of the code is the judgement's operand x, in the scope
//! s: its type, its tree's image, and how it may be used. A string is the number of its characters among those of the
//! scope (`texts_of`), and so is a use of it in a tree that is being made.
#![tactic(auto)]

pub mod calls;
mod operand;
pub mod operators;
pub mod symbols;
mod texts;
pub mod trees;
mod usage;
mod values;

pub use operand::{Operand, Use, What};
pub use texts::{characters_of, constant_text, literal_text, text};
pub use values::{checked, designator, form};
