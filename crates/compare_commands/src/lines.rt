//! The cells of a table's lines.

ghost use Rattle.std.specs.Prelude.{◌≡◌, ◌-◌, ◌++◌, length, replicate, OnOk};
ghost use Rattle.std.specs.Fmt.{decimal};
ghost use Rattle.compare_commands.specs.Lines.{builder_name, cell, choice_cells, end_words, figure_cells, header, left_in, limit_cells, name_cells, policy_name, run_cells};

use a64_machine::Halt;
use program_figures::{Builder, Choice, CodeFigures, CountedRun, Policy};
use std::alloc::{AllocError, Global};

/// The table's first line.
const HEADER: &[u8] =
    b"policy   builder regs  words traces  moves stores  loads frame            steps end\n";

/// The cells of figures that there aren't.
const NO_FIGURES: &[u8] = b"      -      -      -      -      -     -                -";

// How a policy is called.
fn policy_name(policy: Policy) -> &'static [u8]
    ensures { result.now ≡ policy_name policy }
{
    match policy {
        Policy::Plain => b"plain",
        Policy::Linear => b"linear",
        Policy::BottomUp => b"bottomup",
        Policy::Mixed => b"mixed",
    }
}

// How a builder is called.
fn builder_name(builder: Builder) -> &'static [u8]
    ensures { result.now ≡ builder_name builder }
{
    match builder {
        Builder::Uni => b"uni",
        Builder::Bi => b"bi",
    }
}

// Appends blanks for so much of a width as a text leaves.
fn put_blanks(
    alloc: Global,
    text: &mut Vec<u8>,
    width: usize,
    piece: &[u8],
) -> Result<(), AllocError>
    ensures { OnOk result (text.new.items ≡ text.old.items ++ replicate (width - length piece.now) 32) }
{
    let blanks = vec![in alloc; b' '; width.saturating_sub(piece.len())]?;
    text.extend_from_slice(blanks.as_slice())?;
    Ok(())
}

// Appends a text with blanks behind it.
fn put_left(alloc: Global, text: &mut Vec<u8>, width: usize, piece: &[u8]) -> Result<(), AllocError>
    ensures { OnOk result (text.new.items ≡ text.old.items ++ left_in width piece.now) }
{
    text.extend_from_slice(piece)?;
    put_blanks(alloc, text, width, piece)
}

// Appends a text behind a blank and others.
fn put_cell(alloc: Global, text: &mut Vec<u8>, width: usize, piece: &[u8]) -> Result<(), AllocError>
    ensures { OnOk result (text.new.items ≡ text.old.items ++ cell width piece.now) }
{
    text.push(b' ')?;
    put_blanks(alloc, text, width, piece)?;
    text.extend_from_slice(piece)?;
    Ok(())
}

// Appends a number as such a cell.
fn put_number(
    alloc: Global,
    text: &mut Vec<u8>,
    width: usize,
    number: u64,
) -> Result<(), AllocError>
    ensures { OnOk result (text.new.items ≡ text.old.items ++ cell width (decimal number)) }
{
    let digits = format!(in alloc; "{number}")?;
    put_cell(alloc, text, width, digits.as_bytes())
}

// Appends the names of a policy and a builder.
fn put_names(
    alloc: Global,
    text: &mut Vec<u8>,
    policy: &[u8],
    builder: &[u8],
) -> Result<(), AllocError>
    ensures { OnOk result (text.new.items ≡ text.old.items ++ name_cells policy.now builder.now) }
{
    put_left(alloc, text, 8, policy)?;
    text.push(b' ')?;
    put_left(alloc, text, 7, builder)
}

/// Appends the table's first line.
pub(crate) fn put_header(text: &mut Vec<u8>) -> Result<(), AllocError>
    ensures { OnOk result (text.new.items ≡ text.old.items ++ header) }
{
    text.extend_from_slice(HEADER)?;
    Ok(())
}

/// Appends the cells of a choice.
pub(crate) fn put_choice(
    alloc: Global,
    text: &mut Vec<u8>,
    choice: &Choice,
) -> Result<(), AllocError>
    ensures { OnOk result (text.new.items ≡ text.old.items ++ choice_cells choice.now) }
{
    put_names(
        alloc,
        text,
        policy_name(choice.policy),
        builder_name(choice.builder),
    )?;
    put_number(alloc, text, 4, u64::from(choice.regs))
}

/// Appends the cells of figures.
pub(crate) fn put_figures(
    alloc: Global,
    text: &mut Vec<u8>,
    figures: CodeFigures,
) -> Result<(), AllocError>
    ensures { OnOk result (text.new.items ≡ text.old.items ++ figure_cells figures) }
{
    put_number(alloc, text, 6, figures.words as u64)?;
    put_number(alloc, text, 6, u64::from(figures.traces))?;
    put_number(alloc, text, 6, figures.moves)?;
    put_number(alloc, text, 6, figures.stores)?;
    put_number(alloc, text, 6, figures.loads)?;
    put_number(alloc, text, 5, u64::from(figures.frame))
}

// Appends a word with a number behind it.
fn put_numbered(
    alloc: Global,
    text: &mut Vec<u8>,
    word: &[u8],
    number: u64,
) -> Result<(), AllocError>
    ensures { OnOk result (text.new.items ≡ text.old.items ++ (word.now ++ decimal number)) }
{
    text.extend_from_slice(word)?;
    let digits = format!(in alloc; "{number}")?;
    text.extend_from_slice(digits.as_bytes())?;
    Ok(())
}

// Appends the words of how a run ended.
fn put_end(alloc: Global, text: &mut Vec<u8>, halt: Halt) -> Result<(), AllocError>
    ensures { OnOk result (text.new.items ≡ text.old.items ++ end_words halt) }
{
    match halt {
        Halt::Ended => text.extend_from_slice(b"ended")?,
        Halt::Spent => text.extend_from_slice(b"spent")?,
        Halt::Trapped { kind, .. } => put_numbered(alloc, text, b"trapped-", u64::from(kind))?,
        _ => put_numbered(alloc, text, b"trapped-", 0)?,
    }
    Ok(())
}

/// Appends the cells of a run.
pub(crate) fn put_run(alloc: Global, text: &mut Vec<u8>, ran: CountedRun) -> Result<(), AllocError>
    ensures { OnOk result (text.new.items ≡ text.old.items ++ run_cells ran) }
{
    put_number(alloc, text, 16, ran.steps)?;
    text.push(b' ')?;
    put_end(alloc, text, ran.halt)
}

/// Appends the cells of a choice that passes a limit.
pub(crate) fn put_limit(alloc: Global, text: &mut Vec<u8>, number: u8) -> Result<(), AllocError>
    ensures { OnOk result (text.new.items ≡ text.old.items ++ limit_cells number) }
{
    text.extend_from_slice(NO_FIGURES)?;
    put_numbered(alloc, text, b" limit-", u64::from(number))
}
