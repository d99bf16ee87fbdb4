//! The image: what the compiler writes and the machine runs.
//!
//! An image has code words, the bytes of its globals, its constants and the greatest frame. In version 2 it also has the
//! places of its procedures. Its lists are small types of this crate that contracts see as the lists of their items.
#![tactic(auto)]

mod image;
mod lists;
mod places;

pub use image::{Image, ProcPlace};
pub use lists::{Bytes, ProcPlaces, Words};
pub use places::place_before;
