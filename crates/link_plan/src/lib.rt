//! The image of flows: what `link` gives runs as the flows mean.
//!
//! `link` takes selected procedures, their lines in code order, and the results of allocators, and gives the image
//! that `linked_flows` defines. Its clause `runs` says that the machine that runs this image is in step with each
//! meaning that the flows keep up with, whichever sound results their traces have.
//!
//! The words of a flow are made at once as a piece, with holes for what depends on where others stand; the pieces are
//! joined at the end: exactly the words that `placed_code` defines for the procedures, the start and the routines
//! before them, or `Limit` where they are over 262,144.
#![tactic(auto)]

mod fault;
mod linking;

pub use fault::LinkFault;
pub use image_form::{Bytes, Image};
pub use linking::{add_pieces, image_of_pieces, link, piece_of_lines};
pub use placed_code::{ImageData, ProcName};
pub use procedure_code::Piece;
