//! Values of constant expressions, from their checked trees.
//!
//! `fold` gives what the judgement calls the value of a constant expression (`fold` of ob_judge): by the operators of the
//! meaning, none where the expression would trap, and none where a part that is evaluated has no value without a store.
//! What isn't evaluated counts for nothing: the right side of `&` behind FALSE may be anything.

mod folding;

pub use folding::fold;
