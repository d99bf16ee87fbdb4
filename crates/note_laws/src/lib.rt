//! The laws of texts' own notes.
//!
//! Notes of the results behind an image of texts pass the audit of the same texts by the same builder and registers, and the image
//! that is made of them is that image, whichever programs the definitions take the texts for. Texts have one image with notes or one
//! refusal where notes are kept, and one plan by a builder or one refusal of it.
#![tactic(auto)]

mod laws;

pub use laws::{
    noted_images_exclude_refusals, notes_of_texts_pass, plans_exclude_refusals,
    texts_have_one_noted_image, texts_have_one_refusal_of_plans, texts_have_one_refusal_with_notes,
};
pub use noted_image::{
    AuditFault, NotedImage, ProgramPlan, audited_image, image_words, source_noted, source_plan,
};
