//! The page of a program: how registers were given in it, trace by trace, by a choice, and by another policy beside it.
//!
//! `program_page` makes the page of a program, `source_page` that of texts. `specs/Pages.antt` says which page that is, `specs/Faults.antt`
//! which limit is told where there is none.
#![tactic(auto)]

mod pages;
mod sources;

pub use pages::program_page;
pub use shown_program::image_words::Refusal;
pub use shown_program::{Builder, Choice, Policy, ProgramFault, image_words};
pub use sources::source_page;
pub use whole_page::Asked;
