//! The command `check`: modules are judged, and nothing is made of them.
//!
//! Where a module breaks a rule, the command ends for that, as others do; in the format for editors a line of JSON is written, too, by
//! the kit's `json`. Where all is well nothing is written. `specs/Checks.antt` says what texts come to, `specs/Lines.antt` has the
//! line. What texts come to is one thing (`proofs/Once.antt`).
#![tactic(auto)]

mod checking;
mod lines;
mod marks;

pub use checking::check;
pub use explanations::Format;
