//! Names and expressions: a part of the parser.
//!
//! Each function reads one production of the grammar, or a part of one, from a `Parser`, and gives its tree or the
//! fault; its contract is `Gives` of `parse_steps`. Types, statements and declarations are parsed above by `expression`,
//! `designator`, `more_expressions`, `begins_expression` and the functions of `names`.
#![tactic(auto)]

mod expressions;
pub mod names;
mod operators;
mod starts;

pub use expressions::{designator, expression, more_expressions};
