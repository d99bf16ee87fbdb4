//! What stands above the table of a trace.

ghost use Rattle.std.specs.Prelude.{◌≡◌, ◌++◌, OnOk};
ghost use Rattle.flow_drawing.specs.Texts.{hue, times_text};
ghost use Rattle.trace_tables.specs.Headings.{title_begin, number_begin, number_end, hint_mark, heading_end, blocks_mark, times_mark, times_end, table_begin, columns_end, title_text, policy_text, which_text, counts_text, hint_text, numbers_text, column_text, columns_text, table_open, table_close};

use crate::counts::Counts;
use alloc_choice::Used;
use flow_drawing::{hue, put_times};
use html_text::{put_number, put_text};
use std::alloc::{AllocError, Global};
use trace_report::{name_of, put_blocks};

#[tactic(auto, unfolding(crate::specs::Headings::title_begin))]
fn put_title_begin(text: &mut Vec<u8>) -> Result<(), AllocError>
    ensures { OnOk result (text.new.items ≡ text.old.items ++ title_begin) }
{
    put_text(text, b"<h3 style=\"--h:")
}

#[tactic(auto, unfolding(crate::specs::Headings::blocks_mark))]
fn put_blocks_mark(text: &mut Vec<u8>) -> Result<(), AllocError>
    ensures { OnOk result (text.new.items ≡ text.old.items ++ blocks_mark) }
{
    put_text(text, b" &#183; blocks ")
}

#[tactic(auto, unfolding(crate::specs::Headings::times_mark))]
fn put_times_mark(text: &mut Vec<u8>) -> Result<(), AllocError>
    ensures { OnOk result (text.new.items ≡ text.old.items ++ times_mark) }
{
    put_text(text, b" &#183; ")
}

#[tactic(auto, unfolding(crate::specs::Headings::times_end))]
fn put_times_end(text: &mut Vec<u8>) -> Result<(), AllocError>
    ensures { OnOk result (text.new.items ≡ text.old.items ++ times_end) }
{
    put_text(text, b"&#215; &#183; ")
}

#[tactic(auto, unfolding(crate::specs::Headings::table_begin))]
fn put_table_begin(text: &mut Vec<u8>) -> Result<(), AllocError>
    ensures { OnOk result (text.new.items ≡ text.old.items ++ table_begin) }
{
    put_text(
        text,
        b"<div class=\"wide\"><table><tr><th>operations and moves</th>",
    )
}

#[tactic(auto, unfolding(crate::specs::Headings::columns_end))]
fn put_columns_end(text: &mut Vec<u8>) -> Result<(), AllocError>
    ensures { OnOk result (text.new.items ≡ text.old.items ++ columns_end) }
{
    put_text(text, b"<th>homes</th><th>words</th></tr>\n")
}

#[tactic(auto, unfolding(crate::specs::Headings::number_begin))]
fn put_number_begin(text: &mut Vec<u8>) -> Result<(), AllocError>
    ensures { OnOk result (text.new.items ≡ text.old.items ++ number_begin) }
{
    put_text(text, b"\"><b>trace ")
}

#[tactic(auto, unfolding(crate::specs::Headings::number_end))]
fn put_number_end(text: &mut Vec<u8>) -> Result<(), AllocError>
    ensures { OnOk result (text.new.items ≡ text.old.items ++ number_end) }
{
    put_text(text, b"</b><span>")
}

#[tactic(auto, unfolding(crate::specs::Headings::hint_mark))]
fn put_hint_mark(text: &mut Vec<u8>) -> Result<(), AllocError>
    ensures { OnOk result (text.new.items ≡ text.old.items ++ hint_mark) }
{
    put_text(text, b" &#183; hint from trace ")
}

#[tactic(auto, unfolding(crate::specs::Headings::heading_end))]
fn put_heading_end(text: &mut Vec<u8>) -> Result<(), AllocError>
    ensures { OnOk result (text.new.items ≡ text.old.items ++ heading_end) }
{
    put_text(text, b"</span></h3>\n")
}

/// Appends a trace by its number, in its colour.
#[tactic(auto, unfolding(crate::specs::Headings::title_text))]
pub(crate) fn put_title(alloc: Global, text: &mut Vec<u8>, trace: usize) -> Result<(), AllocError>
    ensures { OnOk result (text.new.items ≡ text.old.items ++ title_text trace) }
{
    put_title_begin(text)?;
    put_number(alloc, text, hue(trace))?;
    put_number_begin(text)?;
    put_number(alloc, text, trace as u64)?;
    put_number_end(text)
}

fn put_policy(text: &mut Vec<u8>, used: Option<Used>) -> Result<(), AllocError>
    ensures { OnOk result (text.new.items ≡ text.old.items ++ policy_text used) }
{
    match used {
        None => Ok(()),
        Some(used) => put_text(text, name_of(used)),
    }
}

/// Appends by what a trace has its places, which blocks it has, and how often the most frequent of them runs.
#[tactic(auto, unfolding(crate::specs::Headings::which_text))]
pub(crate) fn put_which(
    alloc: Global,
    text: &mut Vec<u8>,
    used: Option<Used>,
    blocks: &[u32],
    most: u64,
) -> Result<(), AllocError>
    ensures { OnOk result (text.new.items ≡ text.old.items ++ which_text used blocks.now most) }
{
    put_policy(text, used)?;
    put_blocks_mark(text)?;
    put_blocks(alloc, text, blocks)?;
    put_times_mark(text)?;
    put_times(alloc, text, most)?;
    put_times_end(text)
}

#[tactic(auto, unfolding(crate::specs::Headings::counts_text))]
fn put_counts(alloc: Global, text: &mut Vec<u8>, counts: Counts) -> Result<(), AllocError>
    ensures { OnOk result (text.new.items ≡ text.old.items ++ counts_text counts) }
{
    put_number(alloc, text, counts.stores as u64)?;
    put_text(text, b" stores, ")?;
    put_number(alloc, text, counts.loads as u64)?;
    put_text(text, b" loads, ")?;
    put_number(alloc, text, counts.moves as u64)?;
    put_text(text, b" moves")
}

fn put_hint(alloc: Global, text: &mut Vec<u8>, parent: Option<u32>) -> Result<(), AllocError>
    ensures { OnOk result (text.new.items ≡ text.old.items ++ hint_text parent) }
{
    match parent {
        None => Ok(()),
        Some(number) => {
            put_hint_mark(text)?;
            put_number(alloc, text, u64::from(number))
        }
    }
}

/// Appends what a trace has of stores, loads and moves, and the trace whose result is its hint.
#[tactic(auto, unfolding(crate::specs::Headings::numbers_text))]
pub(crate) fn put_numbers(
    alloc: Global,
    text: &mut Vec<u8>,
    counts: Counts,
    parent: Option<u32>,
) -> Result<(), AllocError>
    ensures { OnOk result (text.new.items ≡ text.old.items ++ numbers_text counts parent) }
{
    put_counts(alloc, text, counts)?;
    put_hint(alloc, text, parent)?;
    put_heading_end(text)
}

#[tactic(auto, unfolding(crate::specs::Headings::column_text))]
fn put_column(alloc: Global, text: &mut Vec<u8>, reg: u8) -> Result<(), AllocError>
    ensures { OnOk result (text.new.items ≡ text.old.items ++ column_text reg) }
{
    put_text(text, b"<th>X")?;
    put_number(alloc, text, u64::from(reg))?;
    put_text(text, b"</th>")
}

#[tactic(auto, using(crate::proofs::Columns::one_column_more))]
fn put_columns(alloc: Global, text: &mut Vec<u8>, registers: u8) -> Result<(), AllocError>
    ensures { OnOk result (text.new.items ≡ text.old.items ++ columns_text registers) }
{
    for reg in 0..registers {
        put_column(alloc, text, reg)?;
    }
    Ok(())
}

/// Appends the begin of a table, with its columns.
#[tactic(auto, unfolding(crate::specs::Headings::table_open))]
pub(crate) fn put_table_open(
    alloc: Global,
    text: &mut Vec<u8>,
    registers: u8,
) -> Result<(), AllocError>
    ensures { OnOk result (text.new.items ≡ text.old.items ++ table_open registers) }
{
    put_table_begin(text)?;
    put_columns(alloc, text, registers)?;
    put_columns_end(text)
}

/// Appends the end of a table.
#[tactic(auto, unfolding(crate::specs::Headings::table_close))]
pub(crate) fn put_table_close(text: &mut Vec<u8>) -> Result<(), AllocError>
    ensures { OnOk result (text.new.items ≡ text.old.items ++ table_close) }
{
    put_text(text, b"</table></div>\n")
}
