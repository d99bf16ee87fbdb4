//! The command `compare`: what the policies of registers come to for one program, in one table.
//!
//! The program is compiled by each choice of a fixed list, each image is run on the same input, and a row tells what its code and its
//! run come to. `specs/Tables.antt` says what the rows are, and `specs/Compares.antt` what the command comes to when nothing fails: to
//! one table, whatever program the texts are found to be and however many workers there are (`compares_come_to_one`).
#![tactic(auto)]

mod choices;
mod comparing;
mod laws;
mod lines;
mod rows;
mod tables;

pub use comparing::compare;
pub use laws::compares_come_to_one;
pub use meaning_commands::{both, both_agree, comparisons_come_to_one, mean, meanings_come_to_one};
