//! The passes of the compiler, a call for each, and all in one call.

ghost use Rattle.std.specs.Prelude.{◌≡◌, true, IfOk};
ghost use Rattle.image_form.specs.Form.{IsInForm};
ghost use Rattle.ob_types.specs.WellFormed.{well_formed};
ghost use Rattle.alloc_choice.specs.Choice.{IsFitChoice};

use a64_select::select;
use flow_allocation::{AllocatedFlows, Choice, Flow, TraceOut, WorkFault, allocate_flows};
use items::Items;
use link_plan::{Bytes, Image, ImageData, LinkFault, link};
use ob_types::Program;
use program_image::{Compiled, ProgramFault};
use source_image::{Refusal, source_image};
use ssa_build::{LoweredProgram, lower_with_tables};
use ssa_core::Proc;
use ssa_tables::LowerFault;
use ssa_valid::is_valid;
use std::alloc::Global;
use std::sync::Wait;
use std::thread::Threads;
use thiserror::Error;
use trace_pool::final_results;
use trace_work::TraceWork;
use trc_base::{Memory, OpenGate};

/// The procedures of a well-formed program.
pub fn lowered(alloc: Global, program: &Program) -> Result<LoweredProgram, ProgramFault>
    requires { well_formed program.now ≡ true }
{
    match lower_with_tables(alloc, program) {
        Ok(made) => Ok(made),
        Err(LowerFault::Limit { number, index }) => Err(ProgramFault::Limit { number, index }),
        Err(LowerFault::Memory) => Err(ProgramFault::Memory),
    }
}

/// Why procedures have no flows.
#[derive(Clone, Copy, Debug, Error)]
pub enum NoFlows {
    #[error("a procedure that isn't valid")]
    Invalid,
    #[error("out of memory")]
    Memory,
}

/// Whether all procedures are valid.
pub fn all_valid(alloc: Global, procedures: &[Proc]) -> Result<bool, Memory> {
    for procedure in procedures {
        if !is_valid(alloc, procedure)? {
            return Ok(false);
        }
    }
    Ok(true)
}

/// The flows of procedures, each of which is looked at whether it is valid, and let go.
pub fn selected(alloc: Global, procedures: Items<Proc>) -> Result<Vec<Flow>, NoFlows> {
    let mut flows = Vec::new(alloc);
    for procedure in procedures.into_vec() {
        let Ok(valid) = is_valid(alloc, &procedure) else {
            return Err(NoFlows::Memory);
        };
        if !valid {
            return Err(NoFlows::Invalid);
        }
        let Ok(flow) = select(alloc, procedure) else {
            return Err(NoFlows::Memory);
        };
        if flows.push(flow).is_err() {
            return Err(NoFlows::Memory);
        }
    }
    Ok(flows)
}

/// The flows in traces.
pub fn cut<'a>(
    alloc: Global,
    choice: &Choice,
    flows: &'a [Flow],
) -> Result<TraceWork<'a>, WorkFault>
    requires { IsFitChoice choice.now }
{
    TraceWork::new(alloc, choice, 0, flows)
}

/// The final results of all traces, by the workers that are chosen.
pub fn final_outs<R: Threads + Wait + Sync>(
    rt: &R,
    alloc: Global,
    choice: &Choice,
    work: &TraceWork,
) -> Result<Vec<TraceOut>, Memory>
    requires { IsFitChoice choice.now }
{
    final_results(rt, alloc, work, &OpenGate, choice.jobs)
}

/// The flows' traces with final results, in lines.
pub fn allocated<R: Threads + Wait + Sync>(
    rt: &R,
    alloc: Global,
    choice: &Choice,
    flows: &[Flow],
) -> Result<AllocatedFlows, WorkFault>
    requires { IsFitChoice choice.now }
{
    allocate_flows(rt, alloc, choice, 0, flows, &OpenGate)
}

/// The image of flows with final results. It has no globals and no constants, as a made module has none.
pub fn linked(alloc: Global, flows: &[Flow], allocated: AllocatedFlows) -> Result<Image, LinkFault>
    ensures { IfOk result IsInForm }
{
    let none = ImageData {
        flags: 0,
        globals: 0,
        constants: Bytes::new(Vec::new(alloc)),
        names: Items::new(alloc),
    };
    let AllocatedFlows { parts, outs, .. } = allocated;
    link(alloc, flows, parts, outs, none)
}

/// The image of modules' texts, by all passes.
pub fn compiled<R: Threads + Wait + Sync>(
    rt: &R,
    alloc: Global,
    choice: &Choice,
    texts: &[Items<u8>],
) -> Result<Compiled, Refusal>
    requires { IsFitChoice choice.now }
    ensures { IfOk result (λ made. IsInForm made.image) }
{
    source_image(rt, alloc, choice, texts, &OpenGate)
}
