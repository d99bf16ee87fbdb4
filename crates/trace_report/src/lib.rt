//! The traces of flows, told in lines: which blocks each trace has, how often it runs, the trace above it, and by what its
//! values are given places.
//!
//! `trace_report` makes the lines. What a line says stands in `specs/Lines.antt`. `greatest`, `name_of` and `put_blocks` are parts of a
//! line that pages have too.
#![tactic(auto)]

mod lines;
mod reporting;

pub use lines::{greatest, name_of, put_blocks};
pub use reporting::{Report, trace_report};
