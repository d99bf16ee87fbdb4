//! What a page tells of a procedure in numbers, and of its source: its row in the table that sums up, and the head of its section.
//!
//! `traffic_of` counts what a procedure's code moves, and weighs stores and loads of homes by how often they run. `put_row` appends
//! the row of a procedure, `put_section_head` what its section begins with.
#![tactic(auto)]

mod headings;
mod row;
mod rows;
mod sections;
mod traffic;

pub use headings::Sources;
pub use row::{Detail, Row};
pub use rows::{put_labelled, put_row};
pub use sections::put_section_head;
pub use traffic::{Traffic, traffic_of};
