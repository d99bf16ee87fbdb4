//! Objects: a module's text with its results, as the bytes of a file.
//!
//! An object is what a module brings to an image of several: by what its results were made, its text, and the results of the traces
//! of its procedures. Its bytes are the mark `TRC64OBJ` and its fields in plain form (`plain_form`). `write_object` gives them,
//! `read_object` reads them again, or names the first rule that other bytes break, with the place (`specs/Reading.antt`).
#![tactic(auto)]

mod fault;
mod laws;
mod object;
mod reading;
mod writing;

pub use alloc_choice::Policy;
pub use fault::ObjectFault;
pub use laws::{bytes_have_one_object, written_objects_are_read};
pub use object::Object;
pub use reading::read_object;
pub use trace_build::Builder;
pub use writing::write_object;
