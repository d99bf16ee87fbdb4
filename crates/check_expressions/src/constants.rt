//! Constants: the values of expressions where constants are asked for.
//!
//! `constant` walks the expression as one that must be constant, and then evaluates its checked tree. Its clause says that
//! its answer is the judgement's: the constant, or the first rule that is broken; 35 at the expression's first symbol where
//! its value would trap. A constant is a number, a truth value, a character, a set, NIL or a string: no other type has
//! constant expressions in a scope's world (`proofs/constants/Basic.antt`).

mod constants;

pub use constants::{ConstantValue, constant, integer};
