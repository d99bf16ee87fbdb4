//! The calls on a table of types, over a table that has types of every kind.
//!
//! `sample_types` makes the table that `specs/Sample.antt` defines; that it meets what the calls ask of a table is proved by
//! computing over all its types (`proofs/Sampled.antt`). The tests ask each call for pairs of types, with the answers that
//! the language's rules give (Oberon-07 report, sections 6 and 9.1).
#![tactic(auto)]

mod sample;
#[cfg(test)]
mod tests;

pub use sample::{align, bytes, cells, extends, is_assignable, is_same, sample_types};
