//! What procedures take and give, and procedure types (Oberon-07 report, sections 6.5 and 10.1).
//!
//! Each function is a part of the judgement on the state between declarations (check_making): its clause `judged` says that
//! from each state of the judgement that the code's stands for, its answer is the judgement's, and what the state then stands
//! for is what that leaves. It asks for a state that stands for one (`Stands`), and leaves such a state; a type that had a
//! number keeps it and its meaning.

mod aside;
mod modes;
mod opened;
mod parameters;
mod procedures;
mod sections;
mod standing;

pub use aside::{names_aside, names_back};
pub use parameters::Listed;
pub use procedures::{procedure_of, procedure_type};
pub use sections::{Heading, formal_part};
