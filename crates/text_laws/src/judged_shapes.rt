//! The shapes that the judgement makes are closed.
//!
//! Each array in the type of a field, a variable or a parameter of a judged image has elements of some type. So programs that
//! the judgement gives of the same modules have one lowering and one meaning, if their uses of strings are in order.

mod laws;

pub use laws::{
    judged_images_have_closed_types, modules_have_one_lowering, modules_have_one_meaning,
};
