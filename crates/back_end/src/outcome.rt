//! What the task of a flow gives.

ghost use Rattle.std.specs.Prelude.{◌≡◌, IfOk};
ghost use Rattle.lir_core.specs.Flows.{IsValidFlow};
ghost use Rattle.alloc_choice.specs.Choice.{IsFitChoice};
ghost use Rattle.back_end.specs.Tasks.{IsOutcome, is_large, is_handed_back};

use crate::making::{MadeFlow, make_flow};
use flow_allocation::{Choice, Flow, WorkFault};
use outside::Memory;
use std::alloc::Global;

/// How many nodes a flow has at most that one worker makes while others make others.
const MOST_NODES: usize = 1024;

/// What the task of a flow gives.
#[derive(Drop)]
pub enum Outcome {
    /// The flow is made.
    Made(MadeFlow),
    /// The flow has over 262,144 traces.
    Traces,
    /// The flow, which has so many nodes that workers are to share its traces.
    Large(Flow),
}

// Whether workers are to share the traces of a flow.
fn is_large(choice: &Choice, flow: &Flow) -> bool
    ensures { result ≡ is_large choice.now flow.now }
{
    choice.jobs > 1 && flow.nodes.len() > MOST_NODES
}

/// What the task of a flow gives: the flow is made by the thread that calls, or it is handed back where it is large. Takes the time of
/// the passes.
pub fn outcome_of(alloc: Global, choice: &Choice, flow: Flow) -> Result<Outcome, Memory>
    requires fit { IsFitChoice choice.now }
    requires valid { IsValidFlow flow }
    ensures outcome { IfOk result (IsOutcome choice.now flow) }
    ensures large { IfOk result (λ outcome. is_handed_back outcome ≡ is_large choice.now flow) }
{
    if is_large(choice, &flow) {
        return Ok(Outcome::Large(flow));
    }
    match make_flow(alloc, choice, &flow) {
        Ok(made) => Ok(Outcome::Made(made)),
        Err(WorkFault::Traces) => Ok(Outcome::Traces),
        Err(WorkFault::Memory) => Err(Memory),
    }
}
