//! The work pool's core: what a pool of traces is, what each event of a worker changes in it, and the rule that
//! every event keeps.
//!
//! It takes a tree of traces, each by its parent's number. `Core` is the pool as a machine that makes one event of
//! one worker at a time; the pool that threads share makes the same events on atomic words. The layer above uses
//! `Work`, which says what a trace's final result and hint are, the rule (`Rule`), that each event keeps it
//! (`proofs/`), and `ChildIndex`.
#![tactic(auto)]

mod cells;
mod children;
mod laws;
mod machine;
mod model;
mod work;
mod workers;

pub use cells::{FirstCells, first_cells};
pub use children::{ChildIndex, is_tree};
pub use laws::{
    each_event_changes_one_worker, each_event_keeps_the_rule, each_run_keeps_the_rule,
    each_trace_is_taken_once, the_lowest_unfinished_waits,
};
pub use machine::Core;
pub use model::{Event, Seen, Stage, State, Worker};
pub use outside::Memory;
pub use work::Work;
