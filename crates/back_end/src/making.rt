//! The words of one flow, by one thread.

ghost use Rattle.std.specs.Prelude.{◌≡◌, [], ◌∷◌, ℕ, ◌<◌, ◌≤◌, IfOk, IfErr};
ghost use Rattle.lir_core.specs.Flows.{IsValidFlow};
ghost use Rattle.linked_flows.specs.Allocations.{Cut};
ghost use Rattle.link_blocks.specs.Laid.{IsCutOf};
ghost use Rattle.link_plan.specs.Linked.{IsAllocated};
ghost use Rattle.trace_build.specs.Traces.{traces_in};
ghost use Rattle.alloc_choice.specs.Choice.{IsFitChoice};
ghost use Rattle.trace_work.specs.declared.fault.WorkFault.TheVariants.{Traces};
ghost use Rattle.back_end.specs.Made.{AreWords, IsMade};

use boundary_resolve::CodeLine;
use flow_allocation::{AllocatedFlow, Choice, Flow, TraceOut, WorkFault, allocate_flow};
use link_plan::{LinkFault, Piece, piece_of_lines};
use outside::Memory;
use std::alloc::Global;

/// What the words of a flow come to.
#[derive(Drop)]
pub enum FlowWords {
    /// The words as a piece.
    Piece(Piece),
    /// A number, a register or the frame fits no instruction.
    Misfit,
    /// The flow alone is longer than an image may be.
    Limit,
}

/// Of how many traces a flow is made, and what its words come to.
#[derive(Drop)]
pub struct MadeFlow {
    pub traces: u32,
    pub words: FlowWords,
}

/// The words of a flow by the thread that calls: its traces are those of the builder that is chosen, each with the final result by
/// the policy. `Traces` comes exactly where it has over 262,144 traces. Takes the time of the passes that it calls, and lets go of all
/// but the words.
pub fn make_flow(alloc: Global, choice: &Choice, flow: &Flow) -> Result<MadeFlow, WorkFault>
    requires fit { IsFitChoice choice.now }
    ensures made { IsValidFlow flow.now → IfOk result (IsMade choice.now flow.now) }
    ensures limit { IfErr result (λ fault. fault ≡ Traces → 262144 < traces_in choice.now.builder (flow.now ∷ [])) }
{
    let AllocatedFlow {
        lines,
        outs,
        traces,
    } = allocate_flow(alloc, choice, flow)?;
    let words = words_of(alloc, flow, lines.as_slice(), outs.as_slice())?;
    Ok(MadeFlow { traces, words })
}

// What the words of a flow come to, from its lines in code order and the results for its traces.
fn words_of(
    alloc: Global,
    flow: &Flow,
    lines: &[CodeLine],
    outs: &[TraceOut],
) -> Result<FlowWords, Memory>
    ensures { (k : ℕ) (c : Cut) → k ≤ 16 → IsAllocated k c → IsCutOf k flow.now lines.now outs.now c → IfOk result (AreWords c) }
{
    match piece_of_lines(alloc, flow, lines, outs) {
        Ok(piece) => Ok(FlowWords::Piece(piece)),
        Err(LinkFault::Misfit) => Ok(FlowWords::Misfit),
        Err(LinkFault::Limit) => Ok(FlowWords::Limit),
        Err(LinkFault::Memory) => Err(Memory),
    }
}
