//! A flow in traces.

ghost use Rattle.std.specs.Prelude.{◌≡◌, length, IfOk};
ghost use Rattle.lir_core.specs.Flows.{IsValidFlow};
ghost use Rattle.trace_build.specs.Traces.{traces_of};
ghost use Rattle.trace_work.specs.Plans.{IsPlan, IsOrdered};

use crate::places::places;
use global_live::live;
use items::Items;
use lir_core::{Flow, LiveSets, Trace};
use outside::Memory;
use std::alloc::Global;
use trace_build::{Builder, build, parents};

/// A flow in traces, and what their results are made from.
#[derive(Drop)]
pub struct TracePlan<'a> {
    pub flow: &'a Flow,
    pub live: LiveSets,
    pub traces: Items<Trace>,
    /// The trace above each trace, by its number in this flow.
    pub parents: Items<Option<u32>>,
    /// The place of each node in its trace.
    pub places: Items<usize>,
    /// The place of the first trace among those of the flows that are worked on together.
    pub first: u32,
    /// The number of the first trace, through all flows.
    pub number: u32,
}

impl<'a> TracePlan<'a> {
    /// A flow alone in the traces of a builder: its first trace has the place and the number 0. Takes the time of the passes:
    /// near-linear in the flow's nodes, edges and live values.
    pub fn alone(alloc: Global, builder: Builder, flow: &'a Flow) -> Result<TracePlan<'a>, Memory>
        ensures plan { IsValidFlow flow.now → IfOk result (IsPlan builder) }
        ensures flow { IfOk result (λ plan. plan.flow.now ≡ flow.now) }
        ensures number { IfOk result (λ plan. plan.number ≡ 0) }
        ensures count { IfOk result (λ plan. length plan.traces ≡ length (traces_of builder flow.now.nodes)) }
        ensures ordered { IfOk result IsOrdered }
    {
        plan_of(alloc, builder, flow, 0, 0)
    }
}

/// A flow in the traces of a builder, the first of which has this place and this number. Takes the time of the passes: near-linear in the
/// flow's nodes, edges and live values.
pub(crate) fn plan_of<'a>(
    alloc: Global,
    builder: Builder,
    flow: &'a Flow,
    first: u32,
    number: u32,
) -> Result<TracePlan<'a>, Memory>
    ensures plan { IsValidFlow flow.now → IfOk result (IsPlan builder) }
    ensures flow { IfOk result (λ plan. plan.flow.now ≡ flow.now) }
    ensures first { IfOk result (λ plan. plan.first ≡ first) }
    ensures number { IfOk result (λ plan. plan.number ≡ number) }
    ensures count { IfOk result (λ plan. length plan.traces ≡ length (traces_of builder flow.now.nodes)) }
    ensures ordered { IfOk result IsOrdered }
{
    let live = live(alloc, flow)?;
    let traces = build(alloc, builder, flow)?;
    let parents = parents(alloc, flow, traces.as_slice())?;
    let places = places(alloc, flow.nodes.len(), traces.as_slice())?;
    Ok(TracePlan {
        flow,
        live,
        traces: Items::from_vec(traces),
        parents: Items::from_vec(parents),
        places: Items::from_vec(places),
        first,
        number,
    })
}
