//! The tables of a procedure's traces, as HTML: operations and moves down, registers across, and in each cell the value that the
//! register has behind the line.
//!
//! `put_tables` appends them. What they say stands in `specs/Tables.antt`, what stands above each in `specs/Headings.antt`; their
//! rows are those of `trace_rows`.
#![tactic(auto)]

mod counts;
mod headings;
mod nothing;
mod seats;
mod shown;
mod tables;

pub use shown::ShownProcedure;
pub use tables::put_tables;
