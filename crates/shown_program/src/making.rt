//! An image with all from which it was made.

ghost use Rattle.std.specs.Prelude.{◌≡◌, true, IfOk, IfErr};
ghost use Rattle.ob_types.specs.WellFormed.{well_formed};
ghost use Rattle.noted_image.specs.words.alloc_choice.Choice.{IsFitChoice};
ghost use Rattle.noted_image.specs.words.program_image.Faults.{Tells};
ghost use Rattle.shown_program.specs.Shown.{IsShownProgram};

use boundary_resolve::CodeLine;
use image_form::Image;
use kept_plans::{LinkFault, LinkedPlans, Plan, all_parents, link_kept};
use lir_core::{Flow, Trace, TraceOut};
use noted_image::image_words::{AllocatedFlows, Choice, ProgramFault, allocate_flows, whole_limit};
use noted_image::{ProgramFlows, WorkFault, cut_flows, program_flows};
use ob_types::Program;
use outside::Gate;
use std::alloc::Global;
use std::sync::Wait;
use std::thread::Threads;

/// A program's procedures by their numbers: as flows, the traces of each, the traces above these, their results, the lines of its code, its plan; and
/// the image of all.
#[derive(Drop)]
pub struct ShownProgram {
    pub flows: Vec<Flow>,
    pub cuts: Vec<Vec<Trace>>,
    pub parents: Vec<Vec<Option<u32>>>,
    pub outs: Vec<Vec<TraceOut>>,
    pub lines: Vec<Vec<CodeLine>>,
    pub plans: Vec<Plan>,
    pub image: Image,
}

/// The image of a well-formed program by the builder, the policy and the registers that are chosen, the same as `program_image` gives,
/// with all from which it was made. A program is refused as it is for its image. The workers of the choice share the traces, and pass
/// the gate before each; it may wait.
pub fn shown_program<G: Gate, R: Threads + Wait + Sync>(
    rt: &R,
    alloc: Global,
    choice: &Choice,
    program: &Program,
    gate: &G,
) -> Result<ShownProgram, ProgramFault>
    requires well_formed { well_formed program.now ≡ true }
    requires choice { IsFitChoice choice.now }
    ensures shown { IfOk result (IsShownProgram choice.now program.now) }
    ensures limit { IfErr result (Tells choice.now program.now) }
{
    let ProgramFlows { flows, extra } = program_flows(alloc, program)?;
    let AllocatedFlows { parts, outs, .. } = match allocate_flows(
        rt,
        alloc,
        choice,
        0,
        flows.as_slice(),
        gate,
    ) {
        Ok(allocated) => allocated,
        Err(WorkFault::Traces) => return Err(whole_limit(57)),
        Err(WorkFault::Memory) => return Err(ProgramFault::Memory),
    };
    let Ok(cuts) = cut_flows(alloc, choice.builder, flows.as_slice()) else {
        return Err(ProgramFault::Memory);
    };
    let Ok(parents) = all_parents(alloc, flows.as_slice(), cuts.as_slice()) else {
        return Err(ProgramFault::Memory);
    };
    let LinkedPlans { plans, image } = match link_kept(
        alloc,
        flows.as_slice(),
        parts.as_slice(),
        outs.as_slice(),
        extra,
    ) {
        Ok(linked) => linked,
        Err(LinkFault::Limit) => return Err(whole_limit(54)),
        Err(LinkFault::Misfit) => unreachable!(),
        Err(LinkFault::Memory) => return Err(ProgramFault::Memory),
    };
    Ok(ShownProgram {
        flows,
        cuts,
        parents,
        outs,
        lines: parts,
        plans,
        image,
    })
}
