//! The procedures of a program, as a pool takes them.

ghost use Rattle.std.specs.Prelude.{◌≡◌, ◌<◌, true, None, Some, slice_get, length, IfOk, OnOk, IfErr};
ghost use Rattle.ob_types.specs.WellFormed.{well_formed};
ghost use Rattle.lir_core.specs.Flows.{IsValidFlow};
ghost use Rattle.alloc_choice.specs.Choice.{IsFitChoice};
ghost use Rattle.ssa_lowered.specs.Data.{layout};
ghost use Rattle.ssa_lowered.specs.Limits.{limit_in};
ghost use Rattle.ssa_tables.specs.Faults.{Tells, first_limit};
ghost use Rattle.ssa_tables.specs.Shared.{ServesAll};
ghost use Rattle.program_image.specs.Tasks.{flow_of, no_parents, IsLowered, IsTaskAt};

use crate::sizes::is_short;
use a64_select::select;
use back_end::{Choice, Flow, Outcome, outcome_of, read_nodes};
use ob_types::{Procedure, Program};
use outside::Memory;
use pool_core::Work;
use ssa_build::lower_procedure;
use ssa_exprs::ProgramTables;
use ssa_tables::LowerFault;
use std::alloc::Global;

/// What the task of a procedure gives.
#[derive(Drop)]
pub(crate) enum Task {
    /// The procedure of that number passes the limit of this number.
    Past { number: u8, index: u32 },
    /// The procedure is lowered, and this is what its flow comes to.
    Lowered(Outcome),
}

/// A well-formed program of few procedures and globals, whose procedures wait for nothing but a worker, and the tables that
/// serve them all.
#[derive(Drop)]
pub(crate) struct ProcedureWork<'a> {
    pub(crate) choice: Choice,
    pub(crate) program: &'a Program,
    pub(crate) tables: &'a ProgramTables,
    pub(crate) ghost fit: { IsFitChoice choice },
    pub(crate) ghost fine: { well_formed program.now ≡ true },
    pub(crate) ghost serves: { ServesAll tables.now program.now },
    pub(crate) ghost first: { first_limit program.now ≡ None },
}

// The flow of a procedure, which is lowered and selected; for one of over 500,000,000 blocks and operations there is no memory.
pub(crate) fn lowered_flow(
    alloc: Global,
    tables: &ProgramTables,
    program: &Program,
    number: u32,
    procedure: &Procedure,
) -> Result<Flow, LowerFault>
    requires fine { well_formed program.now ≡ true }
    requires serves { ServesAll tables.now program.now }
    requires first { first_limit program.now ≡ None }
    requires there { slice_get program.now.procedures number ≡ Some procedure.now }
    ensures flow { IfOk result (λ flow. flow ≡ flow_of program.now number procedure.now) }
    ensures valid { IfOk result IsValidFlow }
    ensures lowered { OnOk result (IsLowered program.now number procedure.now) }
    ensures limit { IfErr result (λ e. Tells e (limit_in program.now (layout program.now.types) number procedure.now)) }
{
    let lowered = match lower_procedure(alloc, tables, program, number, procedure) {
        Ok(lowered) => lowered,
        Err(fault) => return Err(fault),
    };
    if !is_short(lowered.blocks.as_slice()) {
        return Err(LowerFault::Memory);
    }
    let Ok(flow) = select(alloc, lowered) else {
        return Err(LowerFault::Memory);
    };
    read_nodes(flow.nodes.as_slice());
    Ok(flow)
}

impl<'a> Work for ProcedureWork<'a> {
    type Done = Task;

    type Hint = ();

    ghost parents = { λ w. no_parents w.program.now.procedures };

    ghost is_final = { λ w number task. IsTaskAt w.choice w.program.now number task };

    ghost is_hint = { λ w number hint. Unit {0} };

    fn count(&self) -> u32 {
        self.program.procedures.len() as u32
    }

    fn parent(&self, number: u32) -> Option<u32> {
        let _ = number;
        None
    }

    fn gate_number(&self, number: u32) -> u32 {
        number
    }

    fn run<'b>(&'b self, alloc: Global, number: u32, hint: Option<&'b ()>) -> Result<Task, Memory> {
        let _ = hint;
        let procedure = &self.program.procedures.as_slice()[number as usize];
        match lowered_flow(alloc, self.tables, self.program, number, procedure) {
            Ok(flow) => Ok(Task::Lowered(outcome_of(alloc, &self.choice, flow)?)),
            Err(fault) => match fault {
                LowerFault::Limit { number, index } => Ok(Task::Past { number, index }),
                LowerFault::Memory => Err(Memory),
            },
        }
    }

    fn hint(&self, alloc: Global, done: &Task, child: u32) -> Result<(), Memory> {
        let _ = (alloc, child);
        let _ = done;
        Ok(())
    }
}
