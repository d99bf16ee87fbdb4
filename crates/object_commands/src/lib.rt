//! The commands that write objects and link them.
//!
//! `object` writes the object of the last of some modules. `link` reads objects, whoever made them, joins their texts and results,
//! plans the texts, audits the results, and where these are sound writes the image that they make. `specs/Objects.antt` and
//! `specs/Links.antt` say what these come to when nothing fails.
#![tactic(auto)]

mod laws;
mod linking;
mod making;
mod reading;

pub use laws::{links_come_to_one, objects_come_to_one};
pub use linking::link;
pub use making::object;
pub use note_commands::{
    Scaffolds, audit, audits_come_to_one, build_anew_with_notes, build_with_notes, compile,
    image_alone, image_words, noted_images_exclude_refusals, notes_of_texts_pass,
    texts_have_one_noted_image, texts_have_one_refusal_with_notes, trace_lines,
};
pub use object_laws::image_words::{Builder, Choice};
pub use object_laws::objects_link_as_built;
