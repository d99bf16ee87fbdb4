//! Trees of given sizes and shapes.

use std::alloc::Global;
use sum_tree::{MOST_TRACES, SumTree};
use thiserror::Error;

/// Why there is no tree.
#[derive(Clone, Copy, PartialEq, Eq, Debug, Error)]
pub enum NoTree {
    #[error("out of memory")]
    Memory,
    #[error("at most {MOST_TRACES} traces")]
    TooMany,
}

/// How traces hang together.
#[derive(Clone, Copy)]
pub enum Shape {
    /// Every thousandth trace is a root, and each other has about four children.
    Bushy,
    /// Each trace is the child of the one before.
    Chain,
    /// No trace has a parent.
    Apart,
}

fn parent_of(shape: Shape, trace: u32) -> Option<u32> {
    match shape {
        Shape::Bushy if trace % 1000 == 0 => None,
        Shape::Bushy => Some(trace / 4),
        Shape::Chain if trace == 0 => None,
        Shape::Chain => Some(trace - 1),
        Shape::Apart => None,
    }
}

/// A tree of this shape with so many traces, each of so many rounds.
pub fn made_tree(
    alloc: Global,
    shape: Shape,
    traces: u32,
    rounds: u32,
    failing: Option<u64>,
) -> Result<SumTree, NoTree> {
    let mut parents = Vec::new(alloc);
    for trace in 0..traces {
        if parents.push(parent_of(shape, trace)).is_err() {
            return Err(NoTree::Memory);
        }
    }
    SumTree::new(parents, rounds, failing).ok_or(NoTree::TooMany)
}
