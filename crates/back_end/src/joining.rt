//! The pieces of flows, from what their tasks gave.

ghost use Rattle.std.specs.Prelude.{◌≡◌, [], ◌∷◌, ◌+◌, ◌<◌, ◌≤◌, List, All, IfOk, OnOk, IfErr};
ghost use Rattle.lir_core.specs.Flows.{IsValidFlow};
ghost use Rattle.lir_core.specs.declared.flow.Flow.{Flow as OfFlow};
ghost use Rattle.trace_build.specs.Traces.{traces_in};
ghost use Rattle.alloc_choice.specs.Choice.{IsFitChoice};
ghost use Rattle.alloc_choice.specs.declared.choice.Choice.{Choice as OfChoice};
ghost use Rattle.back_end.specs.Made.{IsMade};
ghost use Rattle.back_end.specs.Tasks.{IsOutcome, AreOutcomes};
ghost use Rattle.back_end.specs.Planning.{IsPlanned, AreMore};
ghost use Rattle.back_end.specs.declared.fault.ImageFault.TheVariants.{Traces, Code, Misfit};

use crate::fault::ImageFault;
use crate::making::{FlowWords, MadeFlow};
use crate::outcome::Outcome;
use flow_allocation::{AllocatedFlows, Choice, Flow, allocate_flows};
use link_plan::{LinkFault, Piece, add_pieces};
use outside::Gate;
use std::alloc::Global;
use std::slice;
use std::sync::Wait;
use std::thread::Threads;

/// The most traces that an image's code is made of.
const MOST_TRACES: u32 = trace_work::MOST_TRACES as u32;

/// The pieces of flows, and of how many traces they are made. Where some flow fits no instructions, `fit` is false, and where
/// one is longer than any image, `room` is: then the pieces are of no use.
#[derive(Drop)]
pub struct Planned {
    pub pieces: Vec<Piece>,
    pub traces: u32,
    pub fit: bool,
    pub room: bool,
}

/// The pieces of flows, from what their tasks gave, in the order of the flows' numbers: large ones are made here one after the other, and
/// the workers of the choice share the traces of each; a worker passes the gate before it begins such a trace. `Traces` comes exactly
/// where there are over 262,144 traces. It may wait.
pub fn plan_outcomes<G: Gate, R: Threads + Wait + Sync>(
    rt: &R,
    alloc: Global,
    choice: &Choice,
    outcomes: Vec<Outcome>,
    gate: &G,
) -> Result<Planned, ImageFault>
    requires choice { IsFitChoice choice.now }
    ensures planned { (flows : List OfFlow) → AreOutcomes choice.now flows outcomes.items → IfOk result (IsPlanned choice.now flows) }
    ensures traces { (flows : List OfFlow) → AreOutcomes choice.now flows outcomes.items
        → IfErr result (λ fault. fault ≡ Traces → 262144 < traces_in choice.now.builder flows) }
    ensures code { IfErr result (λ fault. fault ≡ Code → ⊥) }
    ensures misfit { IfErr result (λ fault. fault ≡ Misfit → ⊥) }
{
    let mut planned = Planned {
        pieces: Vec::with_capacity(alloc, outcomes.len())?,
        traces: 0,
        fit: true,
        room: true,
    };
    for outcome in outcomes {
        plan_next(rt, alloc, choice, &mut planned, outcome, gate)?;
    }
    Ok(planned)
}

// Adds the piece of the next flow and its traces, from what its task gave.
fn plan_next<G: Gate, R: Threads + Wait + Sync>(
    rt: &R,
    alloc: Global,
    choice: &Choice,
    planned: &mut Planned,
    outcome: Outcome,
    gate: &G,
) -> Result<(), ImageFault>
    requires choice { IsFitChoice choice.now }
    requires few { planned.old.traces ≤ 262144 }
    ensures few { OnOk result (planned.new.traces ≤ 262144) }
    ensures more { (flow : OfFlow) → IsOutcome choice.now flow outcome → OnOk result (AreMore choice.now (flow ∷ []) planned.old planned.new) }
    ensures traces { (flow : OfFlow) → IsOutcome choice.now flow outcome
        → IfErr result (λ fault. fault ≡ Traces → 262144 < planned.old.traces + traces_in choice.now.builder (flow ∷ [])) }
    ensures code { IfErr result (λ fault. fault ≡ Code → ⊥) }
    ensures misfit { IfErr result (λ fault. fault ≡ Misfit → ⊥) }
{
    match outcome {
        Outcome::Made(made) => put(planned, made),
        Outcome::Traces => Err(ImageFault::Traces),
        Outcome::Large(flow) => {
            plan_more(rt, alloc, choice, planned, slice::from_ref(&flow), gate)
        }
    }
}

// Adds the piece of a flow that is made and its traces.
fn put(planned: &mut Planned, made: MadeFlow) -> Result<(), ImageFault>
    requires few { planned.old.traces ≤ 262144 }
    ensures few { OnOk result (planned.new.traces ≤ 262144) }
    ensures more { (choice : OfChoice) (flow : OfFlow) → IsMade choice flow made → OnOk result (AreMore choice (flow ∷ []) planned.old planned.new) }
    ensures traces { IfErr result (λ fault. fault ≡ Traces → 262144 < planned.old.traces + made.traces) }
    ensures code { IfErr result (λ fault. fault ≡ Code → ⊥) }
    ensures misfit { IfErr result (λ fault. fault ≡ Misfit → ⊥) }
{
    let MadeFlow { traces, words } = made;
    if traces > MOST_TRACES - planned.traces {
        return Err(ImageFault::Traces);
    }
    planned.traces += traces;
    match words {
        FlowWords::Piece(piece) => planned.pieces.push(piece)?,
        FlowWords::Misfit => planned.fit = false,
        FlowWords::Limit => planned.room = false,
    }
    Ok(())
}

// Adds the pieces of flows whose traces workers share, where all before them fit instructions, and their traces.
fn plan_more<G: Gate, R: Threads + Wait + Sync>(
    rt: &R,
    alloc: Global,
    choice: &Choice,
    planned: &mut Planned,
    flows: &[Flow],
    gate: &G,
) -> Result<(), ImageFault>
    requires choice { IsFitChoice choice.now }
    requires few { planned.old.traces ≤ 262144 }
    ensures few { OnOk result (planned.new.traces ≤ 262144) }
    ensures more { All IsValidFlow flows.now → OnOk result (AreMore choice.now flows.now planned.old planned.new) }
    ensures traces { IfErr result (λ fault. fault ≡ Traces → 262144 < planned.old.traces + traces_in choice.now.builder flows.now) }
    ensures code { IfErr result (λ fault. fault ≡ Code → ⊥) }
    ensures misfit { IfErr result (λ fault. fault ≡ Misfit → ⊥) }
{
    let AllocatedFlows {
        parts,
        outs,
        traces,
    } = allocate_flows(rt, alloc, choice, planned.traces, flows, gate)?;
    planned.traces += traces;
    if planned.fit {
        match add_pieces(alloc, &mut planned.pieces, flows, parts, outs) {
            Ok(_) => {}
            Err(LinkFault::Misfit) => planned.fit = false,
            Err(LinkFault::Limit) => planned.room = false,
            Err(LinkFault::Memory) => return Err(ImageFault::Memory),
        }
    }
    Ok(())
}
