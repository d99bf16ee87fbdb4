//! What declarations make, in code.
//!
//! A `Declaring` is the state between declarations. `Makes` (`specs/Making.antt`) says which state of the judgement it stands
//! for, in `Surroundings`: the module's text and number, all texts, and the modules before. A part of the judgement is a function whose
//! clause `judged` says that from each state that it stands for, its answer is the judgement's, and the state then stands for
//! what that leaves. `IsSettled` is what such a function asks for and leaves: above all that names mean the same whatever the
//! table of types becomes.
#![tactic(auto)]

mod beginning;
mod declaring;
pub mod headings;
mod looking;
mod making;
pub mod new_types;
pub mod parameters;
pub mod scopes;
mod standing;
mod strings;
mod typing;

pub use declaring::{declare_in, innermost, offer};
pub use making::{Declaring, Forward, Offered, Surroundings, TextPlace};
pub use strings::next_number;
