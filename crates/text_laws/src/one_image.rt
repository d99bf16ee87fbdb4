//! A program has one image by a policy, a builder and a number of registers.
//!
//! The definitions of images name what is live in a flow by rows of bits that they leave open, and never say how many workers
//! there are. Rows with the same bits give the same results, so the image is the same, whatever the workers and the rows.

mod laws;
mod lowerings;

pub use laws::programs_have_one_image;
pub use lowerings::lowerings_have_one_image;
