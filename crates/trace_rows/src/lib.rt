//! The rows of a block in the table of its trace: its first row with the places where it begins, one for each step of an edge
//! and each line, and its end, each with the value that every register has behind it, and the words that the code has for it.
//!
//! What a row says stands in `specs/Rows.antt`, what registers have behind a line in `specs/Registers.antt`: no value is told
//! that the walk by names doesn't have there (`told_values_are_walked`).
#![tactic(auto)]

mod cells;
mod laws;
mod marks;
mod names;
mod operations;
mod places;
mod registers;
mod rows;
mod seat;

pub use boundary_resolve::CodeLine;
pub use laws::told_values_are_walked;
pub use rows::{put_entry_row, put_entry_rows, put_node_rows};
pub use seat::{Cursor, EdgeName, Seat, Sheet};
