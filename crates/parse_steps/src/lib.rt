//! Where a parser is, its steps at one symbol, and how the parts that it reads are put together.
//!
//! A `Parser` takes a module's symbols and goes from left to right with one symbol of look-ahead. What reading a part of
//! the grammar does to it is said by `Gives` (`specs/Parsing.antt`), which the functions for the productions promise;
//! `proofs/Steps.antt` has the lemmas that put parts together. Layers above parse expressions, types, statements and
//! declarations by these steps.
#![tactic(auto)]

mod fault;
mod lists;
mod parser;

pub use fault::ParseFault;
pub use lists::add;
pub use parser::Parser;
