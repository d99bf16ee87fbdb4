//! What the code of a program comes to under a choice, with its image, and how many steps a run takes.
//!
//! `figured_image` makes the image of a program's flows by a choice, the same as `program_image` gives, and counts the moves, stores
//! and loads in the lines behind it. `counted_run` runs an image and counts the steps until the run is over.
#![tactic(auto)]

mod figuring;
mod lines;
mod running;

pub use a64_machine::Halt;
pub use figuring::{CodeFigures, FiguredImage, figured_image};
pub use noted_image::image_words::{Builder, Choice, Policy, ProgramFault};
pub use noted_image::{ProgramFlows, image_words, program_flows};
pub use running::{CountedRun, counted_run};
