//! Texts have one image.
//!
//! The programs that texts are have one lowering, and so one image by a policy, a builder and a number of registers.

mod laws;

pub use laws::texts_have_one_image;
