//! Pieces in code: what stands in a procedure's words where others' places are wanted, and filling it in.
//!
//! The words of a planned procedure are made in two passes, one that measures and one that appends: exactly those of
//! its piece, with holes where a word depends on where others stand. Pieces are joined to the code of an image in the
//! order of their numbers, behind the start and the routines, with their holes filled, or `Limit` where they are over
//! 262,144 words.
#![tactic(auto)]

mod filling;
mod finding;
mod holes;
mod joining;
mod laws;
mod making;
mod measuring;
mod pieces;
mod putting;
mod whole;
mod writing;

pub use filling::entry_at;
pub use holes::{Hole, What};
pub use laws::is_plain;
pub use making::piece_of;
pub use pieces::Piece;
pub use whole::{CodeWords, code_of};
