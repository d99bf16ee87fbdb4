//! The rows of a table: each choice, and what comes of it.

ghost use Rattle.std.specs.Prelude.{◌≡◌, ◌≤◌, true, IfOk};
ghost use Rattle.ob_types.specs.WellFormed.{well_formed};
ghost use Rattle.ob_types.specs.declared.program.Program.{Program};
ghost use Rattle.program_figures.specs.words.alloc_choice.Choice.{IsFitChoice};
ghost use Rattle.program_figures.specs.planned_image.Plans.{AreProgramFlows};
ghost use Rattle.compare_commands.specs.Rows.{AreRows, IsRow};

use crate::choices::choices;
use outside::{Gate, Memory};
use program_figures::{Choice, FiguredImage, ProgramFault, ProgramFlows, figured_image};
use std::alloc::Global;
use std::sync::Wait;
use std::thread::Threads;

/// What comes of a choice.
#[derive(Drop)]
pub enum RowOutcome {
    /// An image, and the figures of the code behind it.
    Made(FiguredImage),
    /// It passes the limit of this number.
    Refused(u8),
}

/// A choice, and what comes of it.
#[derive(Drop)]
pub struct Row {
    pub choice: Choice,
    pub outcome: RowOutcome,
}

// What comes of a program's flows by a choice.
fn row_of<G: Gate, R: Threads + Wait + Sync>(
    rt: &R,
    alloc: Global,
    choice: &Choice,
    program: &ProgramFlows,
    gate: &G,
) -> Result<Row, Memory>
    requires program { (p : Program) × (well_formed p ≡ true) × AreProgramFlows p program.now }
    requires choice { IsFitChoice choice.now }
    ensures choice { IfOk result (λ row. row.choice ≡ choice.now) }
    ensures row { IfOk result (λ row. (p : Program) → well_formed p ≡ true → AreProgramFlows p program.now → IsRow p row) }
{
    match figured_image(rt, alloc, choice, program, gate) {
        Ok(made) => Ok(Row {
            choice: *choice,
            outcome: RowOutcome::Made(made),
        }),
        Err(ProgramFault::Limit { number, .. }) => Ok(Row {
            choice: *choice,
            outcome: RowOutcome::Refused(number),
        }),
        Err(ProgramFault::Memory) => Err(Memory),
    }
}

/// The rows of a program's flows. All images lie in memory.
pub(crate) fn rows_of<G: Gate, R: Threads + Wait + Sync>(
    rt: &R,
    alloc: Global,
    jobs: u32,
    program: &ProgramFlows,
    gate: &G,
) -> Result<Vec<Row>, Memory>
    requires program { (p : Program) × (well_formed p ≡ true) × AreProgramFlows p program.now }
    requires some_jobs { 1 ≤ jobs }
    requires few_jobs { jobs ≤ 64 }
    ensures { IfOk result (λ rows. (p : Program) → well_formed p ≡ true → AreProgramFlows p program.now → AreRows jobs p rows.items) }
{
    let choices = choices(jobs);
    let mut rows = Vec::with_capacity(alloc, choices.len())?;
    for choice in &choices {
        rows.push(row_of(rt, alloc, choice, program, gate)?)?;
    }
    Ok(rows)
}
