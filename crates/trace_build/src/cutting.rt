//! All traces of a flow.

ghost use Rattle.std.specs.Prelude.{◌≡◌, ◌<◌, ◌^◌, length, replicate, true, IfOk, OnOk};
ghost use Rattle.lir_core.specs.Flows.{IsValidFlow};
ghost use Rattle.trace_build.specs.Ranks.{AreRanked};
ghost use Rattle.trace_build.specs.Traces.{traces_of};
ghost use Rattle.trace_build.specs.Cuts.{lists_of, AllTraces, IsPartition, begun, left_free};

use crate::builder::Builder;
use crate::frequency::is_free;
use crate::growing::trace_from;
use crate::ranks::{Rank, ranks};
use lir_core::{Flow, Items, Node, Trace};
use outside::Memory;
use std::alloc::{AllocError, Global};

/// The traces of a flow, in the order in which they are made: the definition's, each node in exactly one, and each a path
/// of the flow. Takes n log n for n nodes, and time in proportion to the edges.
pub fn build(alloc: Global, builder: Builder, flow: &Flow) -> Result<Vec<Trace>, Memory>
    ensures traces { IfOk result (λ traces. lists_of traces.items ≡ traces_of builder flow.now.nodes) }
    ensures partition { IfOk result (λ traces. IsPartition flow.now (lists_of traces.items)) }
    ensures paths { IsValidFlow flow.now → IfOk result (λ traces. AllTraces flow.now (lists_of traces.items)) }
{
    let nodes = flow.nodes.as_slice();
    if u32::try_from(nodes.len()).is_err() {
        return Err(Memory);
    }
    let ranks = ranks(alloc, nodes)?;
    let mut free = vec![in alloc; true; nodes.len()]?;
    Ok(cut(alloc, builder, nodes, ranks.as_slice(), free.as_mut_slice())?)
}

// Begins a trace at each node that is unassigned when its rank comes.
fn cut(
    alloc: Global,
    builder: Builder,
    nodes: &[Node],
    ranks: &[Rank],
    free: &mut [bool],
) -> Result<Vec<Trace>, AllocError>
    requires ranked { AreRanked nodes.now ranks.now }
    requires free { free.old ≡ replicate (length nodes.now) true }
    ensures { IfOk result (λ traces. lists_of traces.items ≡ traces_of builder nodes.now) }
{
    let mut traces = Vec::new(alloc);
    for rank in ranks {
        begin(alloc, builder, nodes, free, &mut traces, rank.node)?;
    }
    Ok(traces)
}

// Begins a trace at a node, if it is unassigned.
fn begin(
    alloc: Global,
    builder: Builder,
    nodes: &[Node],
    free: &mut [bool],
    traces: &mut Vec<Trace>,
    seed: u32,
) -> Result<(), AllocError>
    ensures traces { OnOk result (lists_of traces.new.items ≡ begun builder nodes.now seed free.old (lists_of traces.old.items)) }
    ensures free { OnOk result (free.new ≡ left_free builder nodes.now seed free.old) }
{
    if !is_free(free, seed) {
        return Ok(());
    }
    let trace = trace_from(alloc, builder, nodes, free, seed)?;
    traces.push(Trace {
        nodes: Items::from_vec(trace),
    })?;
    Ok(())
}
