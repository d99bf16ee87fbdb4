//! The state of a pool. No `Worker` and no `State` is made: they are what contracts see.

use std::collections::LinkedList;

/// What a worker is about.
#[derive(Clone, Copy)]
pub enum Stage {
    /// It has nothing.
    Idle,
    /// The number of a cell, from a draw.
    Ticket(u32),
    /// A trace, and how many of its children are shown.
    Trace(u32, u32),
    /// The same, with a cell that is reserved for the next child.
    Placed(u32, u32, u32),
    /// It works no more, for want of memory.
    Stopped,
    /// It was joined into another.
    Spent,
}

/// One atomic step of a worker.
#[derive(Clone, Copy, PartialEq, Eq, Debug)]
pub enum Event {
    /// Takes the next ticket.
    Draw,
    /// Looks into the ticket's cell.
    Look,
    /// Reserves a cell for the next child.
    Reserve,
    /// Shows that child in it.
    Show,
    /// Finishes the trace.
    Finish,
    /// Sets the stop mark, and gives up what the worker has.
    Stop,
    /// Looks at the stop mark.
    See,
}

/// What a worker sees in an event.
#[derive(Clone, Copy, PartialEq, Eq, Debug)]
pub enum Seen {
    /// The number of the cell that was drawn or reserved.
    Ticket(u32),
    /// A draw found no cell left.
    NoMore,
    /// The cell shows nothing yet.
    Empty,
    /// The trace that the cell shows.
    Trace(u32),
    /// Whether the stop mark is set.
    Mark(bool),
    Nothing,
}

/// What a worker has, what it finished, its part of the right to draw, and how often it drew.
pub struct Worker {
    pub stage: Stage,
    pub finished: LinkedList<u32>,
    pub share: u64,
    pub draws: u64,
}

/// The counts of drawn and of filled or reserved cells and of finished traces, the stop mark, the cells (0, or one
/// more than the trace that is shown), and the workers.
pub struct State {
    pub head: u64,
    pub tail: u64,
    pub finished: u64,
    pub mark: u64,
    pub cells: LinkedList<u64>,
    pub workers: LinkedList<Worker>,
}
