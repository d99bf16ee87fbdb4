//! Parts of a page that tells of procedures: the lines of their texts, and their order.
//!
//! `line_starts` finds the lines of a text, `next_heading` where a procedure's lines end; `put_source` appends them as HTML, and
//! `put_heading` the first of them. `ordered` puts procedures in the order in which they are summed up.
#![tactic(auto)]

mod excerpts;
mod order;
mod putting;
mod sources;

pub use excerpts::{put_heading, put_source};
pub use order::{Rank, ordered};
pub use putting::{put_escaped_between, put_number_between};
pub use sources::{SourceText, line_starts, next_heading};
