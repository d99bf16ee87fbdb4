//! The image of a program.

ghost use Rattle.std.specs.Prelude.{◌≡◌, ◌≤◌, true, None, List, length, IfOk, OnOk, IfErr};
ghost use Rattle.image_form.specs.Form.{IsInForm};
ghost use Rattle.ob_types.specs.WellFormed.{well_formed};
ghost use Rattle.alloc_choice.specs.Choice.{IsFitChoice};
ghost use Rattle.ssa_lowered.specs.Limits.{limit_of};
ghost use Rattle.ssa_lowered.specs.Lowered.{lowered};
ghost use Rattle.linked_flows.specs.Allocations.{Cut};
ghost use Rattle.compiled_runs.specs.Compiled.{flows_of};
ghost use Rattle.program_image.specs.Faults.{Tells};
ghost use Rattle.program_image.specs.Images.{IsProgramImage, DoesAsMeant};
ghost use Rattle.ssa_tables.specs.Faults.{first_limit};
ghost use Rattle.ssa_tables.specs.Shared.{ServesAll};
ghost use Rattle.program_image.specs.Limits.{most_traces};
ghost use Rattle.program_image.specs.Tasks.{IsPlannedProgram};
ghost use Rattle.trace_build.specs.Traces.{traces_in};

use crate::data::program_data;
use crate::fault::{ProgramFault, of_imaging, of_lowering};
use crate::making::make_procedures;
use back_end::{Choice, Image, LinkedProcedures, Planned, image_of, plan_outcomes};
use link_plan::Piece;
use lir_core::Items;
use ob_types::Program;
use outside::Gate;
use ssa_exprs::ProgramTables;
use ssa_tables::{check_constants, program_tables};
use std::alloc::Global;
use std::mem::forget;
use std::sync::Wait;
use std::thread::Threads;

/// A program's image, how many procedures and traces it was made of, the modules' bodies among the procedures, and the scaffold
/// that it was made on.
#[derive(Drop)]
pub struct Compiled {
    pub image: Image,
    pub procedures: usize,
    pub traces: u32,
    pub scaffold: Scaffold,
}

/// What an image was made from, and nothing reads any more: the program, and the pieces of its procedures.
#[derive(Drop)]
pub struct Scaffold {
    program: Program,
    pieces: Items<Piece>,
}

impl Compiled {
    /// The image alone, without its scaffold, which is left standing: its memory goes back when the process ends. It is for a process
    /// that ends soon, as to let the trees go piece by piece takes a fifteenth of a compilation; who compiles again and again lets the
    /// whole value go instead.
    pub fn into_image(self) -> Image
        ensures { result ≡ self.image }
    {
        let Compiled {
            image,
            scaffold,
            ..
        } = self;
        forget(scaffold);
        image
    }
}

/// The image of a well-formed program, which is handed back in the scaffold: as `linked_program` gives it.
pub fn program_image<G: Gate, R: Threads + Wait + Sync>(
    rt: &R,
    alloc: Global,
    choice: &Choice,
    program: Program,
    gate: &G,
) -> Result<Compiled, ProgramFault>
    requires well_formed { well_formed program ≡ true }
    requires choice { IsFitChoice choice.now }
    ensures image { IfOk result (λ made. (cuts : List Cut) × IsProgramImage choice.now program cuts made.image) }
    ensures means { IfOk result (λ made. (cuts : List Cut) × IsProgramImage choice.now program cuts made.image
        × DoesAsMeant program cuts made.image) }
    ensures form { IfOk result (λ made. IsInForm made.image) }
    ensures within { OnOk result (limit_of program ≡ None) }
    ensures few { OnOk result (traces_in choice.now.builder (flows_of program) ≤ most_traces) }
    ensures procedures { IfOk result (λ made. made.procedures ≡ length (lowered program)) }
    ensures traces { IfOk result (λ made. made.traces ≡ traces_in choice.now.builder (flows_of program)) }
    ensures limit { IfErr result (Tells choice.now program) }
{
    match linked_program(rt, alloc, choice, &program, gate) {
        Ok(linked) => Ok(Compiled {
            image: linked.image,
            procedures: program.procedures.len(),
            traces: linked.traces,
            scaffold: Scaffold {
                program,
                pieces: linked.pieces,
            },
        }),
        Err(fault) => Err(fault),
    }
}

/// The image of a well-formed program: its procedures, lowered, by the builder, the policy and the registers that are chosen,
/// with its globals and constants. A program is refused by the first limit that it passes: one of lowering, or over 262,144
/// traces (57), or over 262,144 words of code (54). For a procedure of over 500,000,000 blocks and operations
/// there is no memory. Takes the time of the passes; the workers of the choice share the procedures, each of which one of them takes
/// from its lowering to its words, and the traces of large ones, and whatever they do the image is the same. A worker passes the gate
/// before it begins a procedure, with the procedure's number, and before it begins a trace of a large one. It may wait.
pub fn linked_program<G: Gate, R: Threads + Wait + Sync>(
    rt: &R,
    alloc: Global,
    choice: &Choice,
    program: &Program,
    gate: &G,
) -> Result<LinkedProcedures, ProgramFault>
    requires well_formed { well_formed program.now ≡ true }
    requires choice { IsFitChoice choice.now }
    ensures means { IfOk result (λ made. (cuts : List Cut) × IsProgramImage choice.now program.now cuts made.image
        × DoesAsMeant program.now cuts made.image) }
    ensures form { IfOk result (λ made. IsInForm made.image) }
    ensures within { OnOk result (limit_of program.now ≡ None) }
    ensures few { OnOk result (traces_in choice.now.builder (flows_of program.now) ≤ most_traces) }
    ensures traces { IfOk result (λ made. made.traces ≡ traces_in choice.now.builder (flows_of program.now)) }
    ensures limit { IfErr result (Tells choice.now program.now) }
{
    let tables = match program_tables(alloc, program) {
        Ok(tables) => tables,
        Err(fault) => return Err(of_lowering(fault)),
    };
    let planned = planned_program(rt, alloc, choice, program, &tables, gate)?;
    let Ok(data) = program_data(alloc, &tables, program) else {
        return Err(ProgramFault::Memory);
    };
    match image_of(alloc, planned, data) {
        Ok(linked) => Ok(linked),
        Err(fault) => Err(of_imaging(fault)),
    }
}

// The pieces of a program's procedures, whose tables are these.
fn planned_program<G: Gate, R: Threads + Wait + Sync>(
    rt: &R,
    alloc: Global,
    choice: &Choice,
    program: &Program,
    tables: &ProgramTables,
    gate: &G,
) -> Result<Planned, ProgramFault>
    requires fit { IsFitChoice choice.now }
    requires fine { well_formed program.now ≡ true }
    requires serves { ServesAll tables.now program.now }
    requires first { first_limit program.now ≡ None }
    ensures planned { IfOk result (IsPlannedProgram choice.now program.now) }
    ensures limit { IfErr result (Tells choice.now program.now) }
{
    let outcomes = match make_procedures(rt, alloc, choice, program, tables, gate) {
        Ok(outcomes) => outcomes,
        Err(fault) => return Err(of_lowering(fault)),
    };
    match check_constants(program) {
        Ok(_) => {}
        Err(fault) => return Err(of_lowering(fault)),
    }
    match plan_outcomes(rt, alloc, choice, outcomes, gate) {
        Ok(planned) => Ok(planned),
        Err(fault) => Err(of_imaging(fault)),
    }
}
