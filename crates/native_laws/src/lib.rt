//! Laws of native programs whose images are compiled.
//!
//! In native words X28 stands for SP (`elf_file`). No code word of an image of texts names X28, so that each but the calls of
//! services and the traps stands natively as itself, with one register under a name that nothing else has.
#![tactic(auto)]

mod laws;

pub use laws::{compiled_images_leave_the_frame_register, compiled_words_stand_for_themselves};
