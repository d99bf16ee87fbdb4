//! The page of a program: its header, the table that sums up its procedures, and a section for each of them.
//!
//! `page_of` makes it, from what `Seen` lends. `specs/Pages.antt` says what it is. The table that sums up has each procedure once, those
//! that store and load homes most often first (`procedures_are_summed_up_in_order`).
#![tactic(auto)]

mod choices;
mod frames;
mod laws;
mod pages;
mod rows;
mod sections;
mod seen;
mod summaries;
mod tables;

pub use laws::procedures_are_summed_up_in_order;
pub use pages::{Asked, page_of};
pub use seen::Seen;
