//! The laws of whole texts.
//!
//! The text of a module has one reading (`one_reading`), and the texts of some modules come to one program or to one first
//! fault (`one_fault`). A program has one image by a policy, a builder and a number of registers (`one_image`), the shapes that
//! the judgement makes are closed (`judged_shapes`), and so texts have one lowering and one meaning (`one_program`), one image
//! (`one_image_of_texts`), or one refusal (`one_refusal`). The machine that runs an image of texts never comes to a fault
//! (`no_faults`). The values that the judgement finds of constant expressions are what they mean (`constants`).
#![tactic(auto)]

mod constants;
pub mod judged_shapes;
pub mod no_faults;
mod one_fault;
pub mod one_image;
mod one_image_of_texts;
pub mod one_program;
mod one_reading;
pub mod one_refusal;

pub use constants::constants_are_meant;
pub use judged_shapes::{
    judged_images_have_closed_types, modules_have_one_lowering, modules_have_one_meaning,
};
pub use no_faults::images_never_fault;
pub use one_fault::texts_have_one_first_fault;
pub use one_image::{lowerings_have_one_image, programs_have_one_image};
pub use one_image_of_texts::texts_have_one_image;
pub use one_program::{texts_have_one_lowering, texts_have_one_meaning};
pub use one_reading::texts_are_read_once;
pub use one_refusal::{
    images_exclude_refusals, texts_have_one_refusal, texts_have_one_refusal_of_traces,
    texts_have_one_report, traces_exclude_refusals,
};
pub use source_image::{
    AllocatedFlows, Builder, Choice, Compiled, Image, ImageData, ImageFault, LinkFault, Policy,
    ProgramFault, Refusal, allocate_flows, are_short, link, linked_program, of_lowering, of_words,
    program_data, program_traces, refused_program, refused_source, select_all, source_image,
    source_program, source_traces, whole_limit,
};
