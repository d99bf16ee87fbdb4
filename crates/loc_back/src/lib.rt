//! Where values stand along a trace that is walked from its end, and the lines written so far.
//!
//! `Backward` goes from a trace's end to its start: each call is a step with the registers that the caller chose, as the
//! definition says (`specs/Steps.antt`), and keeps that the lines so far simulate the trace's rest, for every numbers of
//! values and whatever operations do, whichever values are homed in the end (`specs/Served.antt`). Home marks come last,
//! once it is known what is homed (`specs/Marks.antt`). The lemmas on steps are in `proofs/` for the policies' own proofs.
#![tactic(auto)]

mod backward;
mod front_items;
mod front_registers;
mod marks;
mod part;
mod scratch;
mod seating;
mod writing;

pub use backward::Backward;
pub use front_items::FrontItems;
pub use front_registers::FrontRegisters;
pub use marks::live_values;
pub use part::{BackPart, Begun, Loading, Stage};
pub use scratch::Scratch;
pub use seating::{leave_params, seat_new_one};
