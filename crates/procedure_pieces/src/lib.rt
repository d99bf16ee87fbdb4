//! Pieces: the words of a procedure but for its holes, wherever it stands.
//!
//! `specs/` says what a piece is and how its holes are filled. The laws say that a procedure's words among others are
//! its piece's with the holes filled, that a piece is as long as its procedure is wide, and that the words of an
//! image are those of its pieces, linked.
#![tactic(auto)]

mod laws;

pub use laws::{has_its_width, is_filled, is_linked};
