//! Types judged, and the TYPE and VAR parts of declarations (Oberon-07 report, sections 6 and 7): the walk over their trees.
//!
//! `type_of` and the functions beside it go down a type's tree in the order of the text; `type_declarations` and
//! `variable_declarations` are the parts of declarations that hold types. Each is a part of the judgement on the state
//! between declarations (check_making): its clause `judged` says that from each state of the judgement that the code's
//! stands for, its answer is the judgement's, and what the state then stands for is what that leaves.

mod declarations;
mod forward;
mod lengths;
mod names;
mod records;
mod walk;

pub use declarations::{type_declarations, variable_declarations};
pub use walk::type_of;
