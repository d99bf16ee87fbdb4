//! A program's image with the notes of the results behind it.
//!
//! `noted_image` and `source_noted` make the image of a program by a choice, the same as `program_image` gives, and keep the results
//! as notes, which `trace_notes` reads again. All flows and results lie in memory.
#![tactic(auto)]

mod notes;
mod noting;
mod sources;

pub use noting::{NotedImage, noted_image};
pub use planned_image::image_words::{Builder, Choice, Image, Policy, ProgramFault, Refusal};
pub use planned_image::{
    AuditFault, ProgramFlows, ProgramPlan, WorkFault, audited_image, cut_flows, image_words,
    program_flows, source_plan,
};
pub use sources::source_noted;
