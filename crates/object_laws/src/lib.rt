//! The laws of objects.
//!
//! The objects of all modules of a program have the program's results: each has those of its module's procedures as they are in the
//! whole program (`objects_have_whole_results`), since the flows of the first modules' program are alike the first ones of the
//! whole program's, and no policy reads what they differ in. So what is linked of them is the image that the texts have
//! (`objects_link_as_built`). Texts have one object (`texts_have_one_object`).
#![tactic(auto)]

mod laws;

pub use laws::{objects_have_whole_results, objects_link_as_built, texts_have_one_object};
pub use module_object::{Object, image_words, module_object};
