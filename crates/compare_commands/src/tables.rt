//! The table of some rows.

ghost use Rattle.std.specs.Prelude.{◌≡◌, ◌++◌, All, IfOk, OnOk};
ghost use Rattle.compare_commands.specs.Rows.{IsFormed};
ghost use Rattle.compare_commands.specs.Tables.{outcome_cells, row_line, table_lines};

use crate::lines::{put_choice, put_figures, put_header, put_limit, put_run};
use crate::rows::{Row, RowOutcome};
use outside::Memory;
use program_figures::{FiguredImage, counted_run};
use std::alloc::Global;

// Appends the cells of what comes of a choice; an image is run on an input, with so many steps.
fn put_outcome(
    alloc: Global,
    text: &mut Vec<u8>,
    outcome: RowOutcome,
    input: &[u8],
    steps: u64,
) -> Result<(), Memory>
    requires { IsFormed outcome }
    ensures { OnOk result (text.new.items ≡ text.old.items ++ outcome_cells steps input.now outcome) }
{
    match outcome {
        RowOutcome::Made(FiguredImage { image, figures }) => {
            let ran = counted_run(alloc, image, Vec::from_slice(alloc, input)?, steps)?;
            put_figures(alloc, text, figures)?;
            put_run(alloc, text, ran)?;
        }
        RowOutcome::Refused(number) => put_limit(alloc, text, number)?,
    }
    Ok(())
}

// Appends a row's line.
fn put_row(
    alloc: Global,
    text: &mut Vec<u8>,
    row: Row,
    input: &[u8],
    steps: u64,
) -> Result<(), Memory>
    requires { IsFormed row.outcome }
    ensures { OnOk result (text.new.items ≡ text.old.items ++ row_line steps input.now row) }
{
    put_choice(alloc, text, &row.choice)?;
    put_outcome(alloc, text, row.outcome, input, steps)?;
    text.push(b'\n')?;
    Ok(())
}

/// The table of some rows, whose images are run on an input, each with so many steps. Each image is let go behind its run.
pub(crate) fn table_of(
    alloc: Global,
    rows: Vec<Row>,
    input: &[u8],
    steps: u64,
) -> Result<Vec<u8>, Memory>
    requires { All (λ row. IsFormed row.outcome) rows.items }
    ensures { IfOk result (λ lines. lines.items ≡ table_lines steps input.now rows.items) }
{
    let mut lines = Vec::new(alloc);
    put_header(&mut lines)?;
    let mut rest = rows.into_iter();
    while let Some(row) = rest.next() {
        put_row(alloc, &mut lines, row, input, steps)?;
    }
    Ok(lines)
}
