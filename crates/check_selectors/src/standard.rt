//! The standard procedures judged (Oberon-07 report, section 10.2), with those of Out and In.
//!
//! Their arguments have been walked already. `standard` says that its answer is the judgement's: the value that a
//! function gives, the statement that a proper procedure is, or the first rule that is broken; 40 for another number of
//! arguments.

mod asked;
mod functions;
mod made;
mod proper;
mod table;

pub use table::standard;
