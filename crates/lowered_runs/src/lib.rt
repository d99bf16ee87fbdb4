//! Lowered procedures keep up with the meaning of the checked program.
//!
//! `specs/Claims.antt` says what is claimed, of every well-formed program; where the store's cells are in memory is said
//! by `held_stores`, and `specs/Words.antt` says what stays all through a run.
#![tactic(auto)]

mod laws;

pub use laws::{programs_keep_up, programs_keep_up_in_layouts};
