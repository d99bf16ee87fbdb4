//! The plan of a program.

ghost use Rattle.std.specs.Prelude.{◌≡◌, true, IfOk, IfErr};
ghost use Rattle.ob_types.specs.WellFormed.{well_formed};
ghost use Rattle.planned_image.specs.Plans.{AreProgramFlows, IsProgramPlan, TellsOfPlan, TellsOfLowering};

use image_words::{
    Builder, ProgramFault, are_short, of_lowering, program_data, select_all, whole_limit,
};
use lir_core::{Flow, Trace};
use ob_types::Program;
use placed_code::ImageData;
use placed_image::{WorkFault, cut_flows};
use ssa_build::{LoweredProgram, lower_with_tables};
use std::alloc::Global;

/// A program's procedures as flows, by their numbers, and what its image has besides its code.
#[derive(Drop)]
pub struct ProgramFlows {
    pub flows: Vec<Flow>,
    pub extra: ImageData,
}

/// The flows of a well-formed program's procedures, which are short, and its data. A program is refused by the first limit of
/// lowering that it passes. For a procedure of over 500,000,000 blocks and operations there is no memory. Takes the time of the passes.
pub fn program_flows(alloc: Global, program: &Program) -> Result<ProgramFlows, ProgramFault>
    requires well_formed { well_formed program.now ≡ true }
    ensures flows { IfOk result (AreProgramFlows program.now) }
    ensures limit { IfErr result (TellsOfLowering program.now) }
{
    let made = match lower_with_tables(alloc, program) {
        Ok(made) => made,
        Err(fault) => return Err(of_lowering(fault)),
    };
    let LoweredProgram { procedures, tables } = made;
    if !are_short(procedures.as_slice()) {
        return Err(ProgramFault::Memory);
    }
    let Ok(extra) = program_data(alloc, &tables, program) else {
        return Err(ProgramFault::Memory);
    };
    let Ok(flows) = select_all(alloc, procedures) else {
        return Err(ProgramFault::Memory);
    };
    Ok(ProgramFlows { flows, extra })
}

/// A program's procedures as flows, by their numbers, the traces of each, numbered through all flows, and what its image has
/// besides its code.
#[derive(Drop)]
pub struct ProgramPlan {
    pub flows: Vec<Flow>,
    pub cuts: Vec<Vec<Trace>>,
    pub extra: ImageData,
}

/// The plan of a well-formed program by a builder. A program is refused as it is for its image, but that its code is not made, and
/// so never too long: by the first limit of lowering that it passes, or for over 262,144 traces (57). Takes the time of the
/// passes.
pub fn program_plan(
    alloc: Global,
    builder: Builder,
    program: &Program,
) -> Result<ProgramPlan, ProgramFault>
    requires well_formed { well_formed program.now ≡ true }
    ensures plan { IfOk result (IsProgramPlan builder program.now) }
    ensures limit { IfErr result (TellsOfPlan builder program.now) }
{
    let ProgramFlows { flows, extra } = program_flows(alloc, program)?;
    match cut_flows(alloc, builder, flows.as_slice()) {
        Ok(cuts) => Ok(ProgramPlan { flows, cuts, extra }),
        Err(WorkFault::Traces) => Err(whole_limit(57)),
        Err(WorkFault::Memory) => Err(ProgramFault::Memory),
    }
}
