//! The commands that write notes and audit them.
//!
//! `build_with_notes` and `build_anew_with_notes` write the image of modules, and the notes of the results behind it. `audit` plans
//! modules, takes results for their traces from notes, whoever made these, and where they are sound writes the image that they make.
//! `specs/Noted.antt` and `specs/Audits.antt` say what these come to when nothing fails.
#![tactic(auto)]

mod auditing;
mod building;
mod laws;
mod reading;

pub use auditing::{audit, not_accepted};
pub use building::{build_anew_with_notes, build_with_notes};
pub use laws::audits_come_to_one;
pub use note_laws::image_words::{Builder, Choice};
pub use note_laws::{
    ProgramPlan, audited_image, image_words, noted_images_exclude_refusals, notes_of_texts_pass,
    plans_exclude_refusals, source_plan, texts_have_one_noted_image,
    texts_have_one_refusal_of_plans, texts_have_one_refusal_with_notes,
};
pub use trc_texts::{Scaffolds, compile, image_alone, refused, trace_lines};
