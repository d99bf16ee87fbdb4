//! Where nodes stand in their traces.

ghost use Rattle.std.specs.Prelude.{◌≡◌, replicate, slice_set, slice_index_or, IfOk};
ghost use Rattle.trace_work.specs.Places.{placed_in, placed_all};

use lir_core::Trace;
use std::alloc::{AllocError, Global};

/// For each of so many nodes its place in the trace that has it, where one has; the last such place where there are
/// several.
pub(crate) fn places(
    alloc: Global,
    nodes: usize,
    traces: &[Trace],
) -> Result<Vec<usize>, AllocError>
    ensures { IfOk result (λ places. places.items ≡ placed_all traces.now (replicate nodes 0)) }
{
    let mut places = vec![in alloc; 0usize; nodes]?;
    for trace in traces {
        place_all(places.as_mut_slice(), trace.nodes.as_slice());
    }
    Ok(places)
}

fn place_all(places: &mut [usize], nodes: &[u32])
    ensures { places.new ≡ placed_in 0 nodes.now places.old }
{
    for (at, node) in nodes.iter().enumerate() {
        place(places, *node, at);
    }
}

fn place(places: &mut [usize], node: u32, at: usize)
    ensures { places.new ≡ slice_set places.old node at }
{
    if (node as usize) < places.len() {
        places[node as usize] = at;
    }
}

/// The place of a node; 0 for one that there isn't.
pub(crate) fn place_of(places: &[usize], node: u32) -> usize
    ensures { result ≡ slice_index_or places.now node 0 }
{
    match places.get(node as usize) {
        Some(at) => *at,
        None => 0,
    }
}
