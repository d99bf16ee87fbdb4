//! The command that writes the page of a program.
//!
//! `show` reads modules, and writes to a file how registers were given in them, trace by trace. `specs/Shows.antt` says what it comes to
//! when nothing fails.
#![tactic(auto)]

mod laws;
mod making;

pub use laws::shows_come_to_one;
pub use making::show;
pub use program_page::{Builder, Choice, Policy};
