//! Images of texts never come to a fault of the machine.
//!
//! A machine fault is a word that is no instruction, an access outside of memory or a call that there isn't. Nothing that a program
//! means corresponds to one, and the machine that runs an image of texts is in step with what they mean; so it never comes.

mod laws;

pub use laws::images_never_fault;
