//! Answers of the checker: how code that judges stands to the judgement.
//!
//! A function that judges gives a `Result` whose fault is a `CheckFault`. `Answers R m result` (`specs/steps/Answers.antt`) says
//! that this is the judgement `m`: what it comes to, in the relation R, or the first rule that is broken and its place;
//! want of memory alone is free. `proofs/steps/Answering.antt` has the lemmas that put answers together. `Source` is a text
//! with its symbols; `proofs/steps/Maps.antt` has what ordered maps from bytes say as functions from names.

mod fault;
mod parts;
mod source;

pub use fault::CheckFault;
pub use parts::{part, part_length};
pub use source::Source;
