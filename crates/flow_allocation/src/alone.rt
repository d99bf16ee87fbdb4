//! A flow alone.

ghost use Rattle.std.specs.Prelude.{◌≡◌, [], ◌∷◌, ◌≤◌, ◌<◌, IfOk, IfErr};
ghost use Rattle.lir_core.specs.Flows.{IsValidFlow};
ghost use Rattle.trace_build.specs.Traces.{traces_in};
ghost use Rattle.alloc_choice.specs.Choice.{IsFitChoice};
ghost use Rattle.trace_work.specs.declared.fault.WorkFault.TheVariants.{Traces};
ghost use Rattle.flow_allocation.specs.Allocations.{AreAllocated};

use boundary_resolve::{CodeLine, resolve};
use lir_core::{Flow, TraceOut};
use std::alloc::Global;
use trace_work::{Choice, MOST_TRACES, TracePlan, WorkFault};

/// A flow with final results.
#[derive(Drop)]
pub struct AllocatedFlow {
    /// The lines in the order of its code.
    pub lines: Vec<CodeLine>,
    /// The results of its traces.
    pub outs: Vec<TraceOut>,
    /// How many traces it has.
    pub traces: u32,
}

/// A flow alone in traces with final results, by the thread that calls: its traces are those of the builder that is chosen, and are
/// numbered from 0 on; the result of each is that of the policy, with its parent's hint, and sound; the lines have the moves of
/// every edge. `Traces` comes exactly where there are over 262,144 traces. Takes the time of the passes that it calls.
pub fn allocate_flow(
    alloc: Global,
    choice: &Choice,
    flow: &Flow,
) -> Result<AllocatedFlow, WorkFault>
    requires fit { IsFitChoice choice.now }
    ensures allocated { IsValidFlow flow.now → IfOk result (λ a. AreAllocated choice.now 0 (flow.now ∷ []) (a.lines.items ∷ []) (a.outs.items ∷ []) a.traces) }
    ensures count { IfOk result (λ a. a.traces ≡ traces_in choice.now.builder (flow.now ∷ [])) }
    ensures few { IfOk result (λ a. a.traces ≤ 262144) }
    ensures limit { IfErr result (λ fault. fault ≡ Traces → 262144 < traces_in choice.now.builder (flow.now ∷ [])) }
{
    let plan = TracePlan::alone(alloc, choice.builder, flow)?;
    let count = plan.traces.len();
    if count > MOST_TRACES {
        return Err(WorkFault::Traces);
    }
    let outs = plan.results(alloc, choice)?;
    let lines = resolve(alloc, plan.flow, plan.traces.as_slice(), outs.as_slice())?;
    Ok(AllocatedFlow {
        lines,
        outs,
        traces: count as u32,
    })
}
