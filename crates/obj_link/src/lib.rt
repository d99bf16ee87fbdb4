//! Objects joined.
//!
//! `join` takes the objects of a program's modules, in the order in which their bodies run, and gives their texts and their results,
//! each one behind the other; or it tells the first object whose results were made by another choice than those of the first one.
//! Whether the results are sound is for the audit to say, which needs the plan of the texts. `take_own` keeps of a program's results
//! those of its last module.
#![tactic(auto)]

mod fault;
mod joining;
mod own;

pub use fault::JoinFault;
pub use joining::{Joined, join};
pub use object_form::Object;
pub use own::take_own;
