//! Texts of the programs that compare with another compiler: modules and flows as words of lines, and sums of images.
//!
//! Modules are read from a line by `texts_of` (`src/modules.rt`), and `spread` makes a line of a short one. A flow is
//! `flow VALUES ARGS [(counted | body) CELLS BYTES] {NODE}`, counted and without local data where nothing is said. A node is
//! `node FREQ ENTER params {V} preds {N} {OPERATION} END`, where ENTER is a number or `-`. An operation is
//! `do NAME NUMBER DEF {V}`, or one of unknown kind: `op DEF {V}`, a call `call DEF {V}`, or a call at an address
//! `aim DEF {V}`. An end is `jump TO {V}`, `branch CONDITION A B YES NO`, `nonzero A YES NO`, `return [V]` or `trap KIND`.
//! What is missing is left out or 0.
#![tactic(auto)]

mod codes;
mod copies;
mod ends;
mod flows;
mod modules;
mod words;

pub use codes::{code_of, name_of};
pub use copies::spread;
pub use ends::{end_of, push_end};
pub use flows::{flow_in, flow_of};
pub use modules::{sum_of, texts_of};
pub use words::{Words, push_numbers, push_optional};
