//! From the texts of modules to the image of the program that they are.
//!
//! `source_image` reads and judges the texts, and makes the image of their program by a choice of traces, policy and registers.
//! `source_traces` tells its traces instead. `specs/Images.antt` says which image that is, and that it does what the program means; `specs/Refusals.antt`, why there is
//! none: the first rule that is broken, the first limit that is passed, or want of memory.
#![tactic(auto)]

mod imaging;
mod refusal;

pub use imaging::{of_words, source_image, source_traces};
pub use program_image::{
    AllocatedFlows, Builder, Choice, Compiled, Image, ImageData, ImageFault, LinkFault, Policy,
    ProgramFault, allocate_flows, are_short, link, linked_program, of_lowering, program_data,
    program_traces, select_all, whole_limit,
};
pub use refusal::{Refusal, refused_program, refused_source};
pub use source_program::source_program;
