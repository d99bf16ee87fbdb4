//! Flows with the results of allocators and the steps of edges, as words of one image.
//!
//! `specs/` says what the words are: of copies between registers and slots of the frame, of operations, entries and ends,
//! and of everything in one row; and when results are sound. The law `images_agree` says that the machine that runs the
//! image carries out the flows, taken with the image's own code addresses, whichever allocator made the results.
#![tactic(auto)]

mod data;
mod laws;

pub use data::{ImageData, ProcName};
pub use laws::images_agree;
