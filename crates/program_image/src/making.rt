//! All procedures of a program, each of which is a task of a pool.

ghost use Rattle.std.specs.Prelude.{◌≡◌, ◌<◌, ◌≤◌, length, true, None, IfOk, IfErr};
ghost use Rattle.ob_types.specs.WellFormed.{well_formed};
ghost use Rattle.ob_types.specs.declared.program.Program.{Program as OfProgram};
ghost use Rattle.alloc_choice.specs.Choice.{IsFitChoice};
ghost use Rattle.alloc_choice.specs.declared.choice.Choice.{Choice as OfChoice};
ghost use Rattle.ssa_lowered.specs.Data.{layout};
ghost use Rattle.ssa_lowered.specs.Limits.{limits_from};
ghost use Rattle.ssa_tables.specs.Faults.{Tells, first_limit};
ghost use Rattle.ssa_tables.specs.Shared.{ServesAll};
ghost use Rattle.program_image.specs.Tasks.{AreMade, AreTasks};

use crate::work::{ProcedureWork, Task};
use back_end::{Choice, Outcome};
use ob_types::Program;
use outside::{Gate, Memory};
use ssa_exprs::ProgramTables;
use ssa_tables::LowerFault;
use std::alloc::Global;
use std::sync::Wait;
use std::thread::Threads;
use trace_pool::final_results;

/// What the flows of a program's procedures come to, in the order of the procedures' numbers, or the first limit that a
/// procedure passes. The workers of the choice share the procedures: one of them lowers a procedure, selects it and makes the words
/// of its flow, and lets go of all but the words. A worker passes the gate before it begins a procedure, with the procedure's
/// number. Takes the time of the passes. It may wait.
pub(crate) fn make_procedures<G: Gate, R: Threads + Wait + Sync>(
    rt: &R,
    alloc: Global,
    choice: &Choice,
    program: &Program,
    tables: &ProgramTables,
    gate: &G,
) -> Result<Vec<Outcome>, LowerFault>
    requires fit { IsFitChoice choice.now }
    requires fine { well_formed program.now ≡ true }
    requires serves { ServesAll tables.now program.now }
    requires first { first_limit program.now ≡ None }
    ensures made { IfOk result (λ outcomes. AreMade choice.now program.now 0 program.now.procedures outcomes.items) }
    ensures limit { IfErr result (λ e. Tells e (limits_from program.now (layout program.now.types) 0 program.now.procedures)) }
{
    let work = ProcedureWork {
        choice: *choice,
        program,
        tables,
    };
    let Ok(tasks) = tasks_of(rt, alloc, choice.jobs, &work, gate) else {
        return Err(LowerFault::Memory);
    };
    outcomes_of(alloc, tasks)
}

// What the tasks give, by at most so many workers.
fn tasks_of<G: Gate, R: Threads + Wait + Sync>(
    rt: &R,
    alloc: Global,
    jobs: u32,
    work: &ProcedureWork,
    gate: &G,
) -> Result<Vec<Task>, Memory>
    requires jobs { (0 < jobs) × (jobs ≤ 64) }
    requires few { length work.now.program.now.procedures ≤ 4096 }
    ensures { IfOk result (λ tasks. AreTasks work.now.choice work.now.program.now 0 work.now.program.now.procedures tasks.items) }
{
    final_results(rt, alloc, work, gate, jobs)
}

// What the flows come to, one after the other, or the first limit that a procedure passes.
fn outcomes_of(alloc: Global, tasks: Vec<Task>) -> Result<Vec<Outcome>, LowerFault>
    ensures made { (choice : OfChoice) (p : OfProgram) → AreTasks choice p 0 p.procedures tasks.items
        → IfOk result (λ outcomes. AreMade choice p 0 p.procedures outcomes.items) }
    ensures limit { (choice : OfChoice) (p : OfProgram) → AreTasks choice p 0 p.procedures tasks.items
        → IfErr result (λ e. Tells e (limits_from p (layout p.types) 0 p.procedures)) }
{
    let Ok(mut outcomes) = Vec::with_capacity(alloc, tasks.len()) else {
        return Err(LowerFault::Memory);
    };
    for task in tasks {
        match task {
            Task::Lowered(outcome) => match outcomes.push(outcome) {
                Ok(_) => {}
                Err(_) => return Err(LowerFault::Memory),
            },
            Task::Past { number, index } => return Err(LowerFault::Limit { number, index }),
        }
    }
    Ok(outcomes)
}
