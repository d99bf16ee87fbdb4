//! Images as the bytes of a file.
//!
//! `write_image` gives an image's bytes: a mark, six numbers or in version 2 seven, the code words, the constants, and the
//! places of procedures. `read_image` reads them again: it takes exactly the bytes of images in form, and names the first
//! rule that other bytes break, with the place. `first_difference` tells where bytes differ from those that an image has in
//! version 1. The bytes of an image are `image_bytes` (`specs/Spelling.antt`), the rules `first_fault` (`specs/Rules.antt`).
#![tactic(auto)]

mod differing;
mod fault;
mod reading;
mod rules;
mod writing;

pub use differing::first_difference;
pub use fault::ImageFault;
pub use reading::read_image;
pub use writing::write_image;
