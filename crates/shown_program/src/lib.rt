//! A program's image by a choice, with all from which it was made: flows, traces, results, lines and plans.
//!
//! `shown_program` makes the image that `program_image` makes, and keeps what a page shows of it. All of it lies in memory.
#![tactic(auto)]

mod making;

pub use making::{ShownProgram, shown_program};
pub use noted_image::image_words;
pub use noted_image::image_words::{Builder, Choice, Image, Policy, ProgramFault};
