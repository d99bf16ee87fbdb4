//! What the machine keeps of its workers.

use crate::model::Stage;

/// A worker, without the traces that it finished.
#[derive(Clone, Copy)]
pub struct Hand {
    pub stage: Stage,
    /// The next child to show, where it has a trace.
    pub next: Option<u32>,
    pub draws: u64,
}

/// A trace, and the worker that finished it.
#[derive(Clone, Copy)]
pub struct Entry {
    pub worker: u32,
    pub trace: u32,
}
