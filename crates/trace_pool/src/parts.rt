//! What a slot holds, and what a seat knows.
use pool_core::{Event, Seen, Worker};
use std::collections::LinkedList;

/// A slot's value: first the hint, later the result.
#[derive(Drop)]
pub enum Content<H, D> {
    Hint(H),
    Done(D),
}

/// An event with what it saw.
pub struct Step {
    pub event: Event,
    pub seen: Seen,
}

/// What a seat knows. No value of it is made.
pub struct View<W> {
    pub work: W,
    pub worker: Worker,
    pub trail: LinkedList<Step>,
}
