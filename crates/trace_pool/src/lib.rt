//! A pool of traces that threads share without a lock, over the atomic words and slots of a table.
//!
//! It takes a `Work`, a tree of traces. `run_workers` has a seat for each thread; a seat draws a ticket, looks into
//! its cell until a trace is shown there, runs it, shows the trace's children, each with its hint, and leaves the final
//! result in the trace's slot. Between any two atomic steps the words, slots and seats meet one rule
//! (`specs/Slots.antt`), which has the core's rule in it. The layer above uses `final_results`, or `Pool::open`,
//! `run_workers` and `gather`: every trace's final result, whatever the threads do.
#![tactic(auto)]

mod hints;
mod opening;
mod parts;
mod plays;
mod pool;
mod results;
mod workers;

pub use parts::{Content, Step, View};
pub use pool::{Draw, Look, Pool, Seat};
pub use results::{final_results, gather};
pub use workers::run_workers;
