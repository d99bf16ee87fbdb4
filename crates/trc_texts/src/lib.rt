//! Texts are compiled, or a command ends.
//!
//! `compile` gives the image of texts and `trace_lines` the lines that tell their traces; where texts are refused, a command ends for
//! a cause, with the place of a broken rule. `refused` says how.
//! `image_alone` is what is kept of what was compiled. `specs/Texts.antt` says what texts
//! come to when nothing fails.
#![tactic(auto)]

mod compiling;

pub use compiling::{Scaffolds, compile, image_alone, refused, trace_lines};
pub use image_words;
