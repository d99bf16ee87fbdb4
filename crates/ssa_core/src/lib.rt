//! Procedures in blocks, in static single assignment form (Brandis and Mössenböck 1994): what lowering makes and selection takes.
//!
//! A procedure has numbered blocks with parameters in place of phi functions. `specs/Procedures.antt` gives it the view over
//! which `block_runs` says what code means, and `specs/Validity.antt` says when it is valid, which selection asks for.
#![tactic(auto)]

mod procedure;

pub use block_runs::{Code, End, Numbers};
pub use items::Items;
pub use procedure::{Block, Op, Proc};
