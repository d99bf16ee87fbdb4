//! A trace grows.

ghost use Rattle.std.specs.Prelude.{◌≡◌, ◌<◌, ◌++◌, length, reverse, true, None, IfSome, OnOk, IfOk};
ghost use Rattle.block_runs.specs.Blocks.{successors};
ghost use Rattle.trace_build.specs.Traces.{is_in, without, without_all, size, most_frequent, unassigned, next_of, grown, above, trace_from};

use crate::builder::Builder;
use crate::frequency::most_frequent;
use lir_core::{Leave, Node};
use std::alloc::{AllocError, Global};

/// Where a trace grows.
#[derive(Clone, Copy)]
pub(crate) enum Direction {
    Up,
    Down,
}

/// The trace that an unassigned node begins; its nodes are assigned.
pub(crate) fn trace_from(
    alloc: Global,
    builder: Builder,
    nodes: &[Node],
    free: &mut [bool],
    seed: u32,
) -> Result<Vec<u32>, AllocError>
    requires { seed < length free.old }
    ensures trace { IfOk result (λ trace. trace.items ≡ trace_from builder nodes.now (without free.old seed) seed) }
    ensures free { IfOk result (λ trace. free.new ≡ without_all free.old trace.items) }
{
    free[seed as usize] = false;
    let mut trace = above(alloc, builder, nodes, free, seed)?;
    trace.push(seed)?;
    grow(nodes, free, &mut trace, seed, Direction::Down)?;
    Ok(trace)
}

// What comes to stand above a node, from the first on.
fn above(
    alloc: Global,
    builder: Builder,
    nodes: &[Node],
    free: &mut [bool],
    node: u32,
) -> Result<Vec<u32>, AllocError>
    ensures turned { IfOk result (λ up. up.items ≡ reverse (above builder nodes.now free.old node)) }
    ensures free { OnOk result (free.new ≡ without_all free.old (above builder nodes.now free.old node)) }
{
    let mut up = Vec::new(alloc);
    if builder == Builder::Bi {
        grow(nodes, free, &mut up, node, Direction::Up)?;
        up.as_mut_slice().reverse();
    }
    Ok(up)
}

// Adds the nodes by which a trace grows, the nearest first.
fn grow(
    nodes: &[Node],
    free: &mut [bool],
    trace: &mut Vec<u32>,
    node: u32,
    way: Direction,
) -> Result<(), AllocError>
    ensures trace { OnOk result (trace.new.items ≡ trace.old.items ++ grown way nodes.now (size free.old) free.old node) }
    ensures free { OnOk result (free.new ≡ without_all free.old (grown way nodes.now (size free.old) free.old node)) }
{
    let mut last = node;
    while let Some(next) = next_of(nodes, free, last, way) {
        free[next as usize] = false;
        trace.push(next)?;
        last = next;
    }
    Ok(())
}

// The most frequent unassigned successor, or predecessor, of a node; before a loop's header only the node that enters the
// loop.
fn next_of(nodes: &[Node], free: &[bool], node: u32, way: Direction) -> Option<u32>
    ensures next { result ≡ next_of way nodes.now free.now node }
    ensures free { IfSome result (λ n. is_in free.now n ≡ true) }
{
    let node = nodes.get(node as usize)?;
    match way {
        Direction::Down => next_below(nodes, free, &node.end),
        Direction::Up => most_frequent(nodes, free, node.enter, node.preds.as_slice()),
    }
}

fn next_below(nodes: &[Node], free: &[bool], end: &Leave) -> Option<u32>
    ensures next { result ≡ most_frequent nodes.now (unassigned free.now None (successors end.now)) }
    ensures free { IfSome result (λ n. is_in free.now n ≡ true) }
{
    match end {
        Leave::Jump { to, .. } => most_frequent(nodes, free, None, &[*to]),
        Leave::Branch { yes, no, .. } | Leave::Nonzero { yes, no, .. } => most_frequent(
            nodes,
            free,
            None,
            &[*yes, *no],
        ),
        Leave::Return(_) | Leave::Trap(_) => None,
    }
}
