//! The parser: from a module's symbols to its tree, or to the first fault.
//!
//! It reads from left to right with one symbol of look-ahead, one function for each production of the grammar in
//! `ob_grammar`; here are those for types, statements, declarations and modules, above those for expressions. The call
//! that layers above use is `parse`, whose contract speaks of modules, of a list's viable length and of the constructs
//! that are open at a symbol. The contracts of the other functions say where reading a part stops (`Gives` of
//! `parse_steps`).
#![tactic(auto)]

mod declarations;
mod formals;
mod labels;
mod modules;
mod parsing;
mod statements;
mod types;

pub use parse_steps::ParseFault;
pub use parsing::parse;
