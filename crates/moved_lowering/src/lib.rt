//! The lowering of a program that begins with another.
//!
//! Where a program's record types and procedures are the first ones of another's, and name no others, its procedures in blocks are the
//! first ones of the other's, but for the numbers of `Global`: data stand elsewhere there. A number of `Global` is the place of a
//! module's variable, of a descriptor or of a string. The relation goes through each construct of lowering
//! (`proofs/Values.antt`, `Blocks`), and then through the tree (`proofs/Trees.antt`).
#![tactic(auto)]

mod laws;

pub use laws::starts_lower_alike;
