//! The results of a module's traces.

ghost use Rattle.std.specs.Prelude.{◌≡◌, ◌<◌, ◌≤◌, true, All, map, length, None, IfOk, OnOk, IfErr};
ghost use Rattle.ob_types.specs.WellFormed.{well_formed};
ghost use Rattle.ssa_lowered.specs.Limits.{limit_of};
ghost use Rattle.planned_image.specs.words.alloc_choice.Choice.{IsFitChoice};
ghost use Rattle.plain_form.specs.results.Bounds.{IsNotable};
ghost use Rattle.planned_image.specs.audited_allocations.Joined.{joined};
ghost use Rattle.lir_core.specs.Flows.{IsValidFlow};
ghost use Rattle.trace_build.specs.Traces.{traces_in};
ghost use Rattle.planned_image.specs.trace_work.declared.fault.WorkFault.TheVariants.{Traces};
ghost use Rattle.planned_image.specs.words.compiled_runs.Compiled.{flows_of};
ghost use Rattle.planned_image.specs.words.program_image.Faults.{TellsOfTraces};
ghost use Rattle.planned_image.specs.words.program_image.Limits.{most_traces};
ghost use Rattle.module_object.specs.Objects.{AreOwnResults, AreResultsBehind};

use crate::counting::{before_module, count_traces};
use lir_core::{Flow, TraceOut};
use ob_types::Program;
use outside::{Gate, Memory};
use planned_image::image_words::{
    AllocatedFlows, Choice, ProgramFault, allocate_flows, whole_limit,
};
use planned_image::{ProgramFlows, WorkFault, program_flows};
use std::alloc::Global;
use std::sync::Wait;
use std::thread::Threads;

// The results of all flows, one behind the other.
fn join_results(alloc: Global, outs: Vec<Vec<TraceOut>>) -> Result<Vec<TraceOut>, Memory>
    ensures { IfOk result (λ all. all.items ≡ joined (map (λ v. v.items) outs.items)) }
{
    let mut all = Vec::new(alloc);
    for own in outs {
        let mut own = own;
        all.append(&mut own)?;
    }
    Ok(all)
}

// The results of the traces of all flows but the first so many, by the numbers that they have behind the traces of the first ones,
// which are only counted.
fn results_behind<G: Gate, R: Threads + Wait + Sync>(
    rt: &R,
    alloc: Global,
    choice: &Choice,
    first: usize,
    flows: &[Flow],
    gate: &G,
) -> Result<Vec<TraceOut>, WorkFault>
    requires choice { IsFitChoice choice.now }
    requires within { first ≤ length flows.now }
    ensures results { All IsValidFlow flows.now → IfOk result (λ outs. AreResultsBehind choice.now first flows.now outs.items) }
    ensures few { OnOk result (traces_in choice.now.builder flows.now ≤ 262144) }
    ensures limit { IfErr result (λ fault. fault ≡ Traces → 262144 < traces_in choice.now.builder flows.now) }
{
    let (before, own) = flows.split_at(first);
    let count = count_traces(alloc, choice.builder, before)?;
    let AllocatedFlows { outs, .. } = allocate_flows(rt, alloc, choice, count, own, gate)?;
    Ok(join_results(alloc, outs)?)
}

/// The results of the traces of a well-formed program's procedures, those from the module with this number on, by the builder, the
/// policy and the registers that are chosen, with the numbers that these traces have in the whole program; the procedures before are
/// given no registers. A program is refused as it is for its image, but that its code is not made, and so never too long. All its
/// flows lie in memory. The workers of the choice share the traces, and pass the gate before each; it may wait.
pub fn own_results<G: Gate, R: Threads + Wait + Sync>(
    rt: &R,
    alloc: Global,
    choice: &Choice,
    number: usize,
    program: &Program,
    gate: &G,
) -> Result<Vec<TraceOut>, ProgramFault>
    requires well_formed { well_formed program.now ≡ true }
    requires choice { IsFitChoice choice.now }
    ensures results { IfOk result (λ outs. AreOwnResults choice.now number program.now outs.items) }
    ensures notable { IfOk result (λ outs. All IsNotable outs.items) }
    ensures within { OnOk result (limit_of program.now ≡ None) }
    ensures few { OnOk result (traces_in choice.now.builder (flows_of program.now) ≤ most_traces) }
    ensures limit { IfErr result (TellsOfTraces choice.now program.now) }
{
    let ProgramFlows { flows, .. } = program_flows(alloc, program)?;
    let first = before_module(number, program.procedures.as_slice());
    match results_behind(rt, alloc, choice, first, flows.as_slice(), gate) {
        Ok(outs) => Ok(outs),
        Err(WorkFault::Traces) => Err(whole_limit(57)),
        Err(WorkFault::Memory) => Err(ProgramFault::Memory),
    }
}
