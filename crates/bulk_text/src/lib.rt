//! Made modules of any size, for measuring a compiler.
//!
//! `bulk_text` writes a module of so many procedures, each with eight statements that a generator of random numbers
//! chooses, and each calling the one before it. The text is a definition (`specs/Bulk.antt`).
#![tactic(auto)]

mod bulk;
mod generator;
mod statement;

pub use bulk::bulk_text;
