//! The words of images of texts, for the crates above.
//!
//! It passes on what contracts above it speak of: programs, flows with their results, plans, images, refusals, and the laws of
//! texts. In `specs/` and `proofs/` each crate has its own name here.
#![tactic(auto)]

pub use text_laws::{
    AllocatedFlows, Builder, Choice, Compiled, Image, ImageData, ImageFault, LinkFault, Policy,
    ProgramFault, Refusal, allocate_flows, are_short, images_exclude_refusals, link,
    linked_program, lowerings_have_one_image, of_lowering, of_words, program_data, program_traces,
    refused_program, refused_source, select_all, source_image, source_program, source_traces,
    texts_are_read_once, texts_have_one_first_fault, texts_have_one_image, texts_have_one_lowering,
    texts_have_one_meaning, texts_have_one_refusal, texts_have_one_refusal_of_traces,
    texts_have_one_report, traces_exclude_refusals, whole_limit,
};
