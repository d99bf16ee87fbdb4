//! All flows, one behind the other.

ghost use Rattle.std.specs.Prelude.{◌≡◌, ◌+◌, ◌≤◌, ◌<◌, take, drop, All, IfOk, OnOk, IfErr};
ghost use Rattle.std.specs.Vec.Iter.{into_iter_items};
ghost use Rattle.lir_core.specs.Flows.{IsValidFlow};
ghost use Rattle.trace_build.specs.Traces.{traces_in};
ghost use Rattle.alloc_choice.specs.Choice.{IsFitChoice};
ghost use Rattle.trace_work.specs.declared.fault.WorkFault.TheVariants.{Traces};
ghost use Rattle.flow_allocation.specs.Allocations.{AreAllocated, items_of};
ghost use Rattle.flow_allocation.specs.Sharing.{AreShared};

use boundary_resolve::{CodeLine, resolve};
use lir_core::{Flow, TraceOut};
use outside::{Gate, Memory};
use pool_core::Work;
use std::alloc::Global;
use std::sync::Wait;
use std::thread::Threads;
use std::vec::IntoIter;
use trace_pool::final_results;
use trace_work::{Choice, TracePlan, TraceWork, WorkFault};

/// Flows with final results, by their numbers.
#[derive(Drop)]
pub struct AllocatedFlows {
    /// The lines of each flow in the order of its code.
    pub parts: Vec<Vec<CodeLine>>,
    /// The results of each flow's traces.
    pub outs: Vec<Vec<TraceOut>>,
    /// How many traces these flows have.
    pub traces: u32,
}

/// Flows in traces with final results, behind so many traces of flows before them: the traces of a flow are those of the builder
/// that is chosen, and follow those of the flows before it in number; the result of each is that of the policy, with its parent's hint, and sound, whichever of the chosen
/// number of workers finds it, and whenever; the lines have the moves of every edge. A worker passes the gate before it begins a
/// trace. `Traces` comes exactly where there are over 262,144 traces with those before. Takes the time of the passes that it calls, flow by flow,
/// but for the traces, which the workers share. It may wait.
pub fn allocate_flows<G: Gate, R: Threads + Wait + Sync>(
    rt: &R,
    alloc: Global,
    choice: &Choice,
    before: u32,
    flows: &[Flow],
    gate: &G,
) -> Result<AllocatedFlows, WorkFault>
    requires fit { IsFitChoice choice.now }
    requires before { before ≤ 262144 }
    ensures allocated { All IsValidFlow flows.now → IfOk result (λ a. AreAllocated choice.now before flows.now (items_of a.parts) (items_of a.outs) a.traces) }
    ensures count { IfOk result (λ a. a.traces ≡ traces_in choice.now.builder flows.now) }
    ensures few { IfOk result (λ a. before + a.traces ≤ 262144) }
    ensures limit { IfErr result (λ fault. fault ≡ Traces → 262144 < before + traces_in choice.now.builder flows.now) }
{
    let work = TraceWork::new(alloc, choice, before, flows)?;
    let outs = final_results(rt, alloc, &work, gate, choice.jobs)?;
    let shared = share(alloc, work.plans.as_slice(), outs)?;
    Ok(AllocatedFlows {
        parts: shared.parts,
        outs: shared.outs,
        traces: work.count(),
    })
}

/// What the flows have of all lines and results.
#[derive(Drop)]
struct Shared {
    parts: Vec<Vec<CodeLine>>,
    outs: Vec<Vec<TraceOut>>,
}

// Gives each flow in turn the results of its traces, and makes its lines.
fn share(alloc: Global, plans: &[TracePlan], outs: Vec<TraceOut>) -> Result<Shared, Memory>
    ensures { IfOk result (λ shared. AreShared plans.now outs.items (items_of shared.parts) (items_of shared.outs)) }
{
    let mut shared = Shared {
        parts: Vec::new(alloc),
        outs: Vec::new(alloc),
    };
    let mut rest = outs.into_iter();
    for plan in plans {
        let own = taken(alloc, &mut rest, plan.traces.len())?;
        let lines = resolve(alloc, plan.flow, plan.traces.as_slice(), own.as_slice())?;
        shared.parts.push(lines)?;
        shared.outs.push(own)?;
    }
    Ok(shared)
}

// The next so many results.
fn taken(
    alloc: Global,
    rest: &mut IntoIter<TraceOut>,
    count: usize,
) -> Result<Vec<TraceOut>, Memory>
    ensures taken { IfOk result (λ own. own.items ≡ take count (into_iter_items rest.old)) }
    ensures left { OnOk result (into_iter_items rest.new ≡ drop count (into_iter_items rest.old)) }
{
    let mut own = Vec::with_capacity(alloc, count)?;
    for _ in 0..count {
        match rest.next() {
            Some(out) => own.push(out)?,
            None => return Ok(own),
        }
    }
    Ok(own)
}
