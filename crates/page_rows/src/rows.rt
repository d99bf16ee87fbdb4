//! The rows of the table that sums up.

ghost use Rattle.std.specs.Prelude.{◌≡◌, ◌++◌, OnOk};
ghost use Rattle.page_rows.specs.Headings.{heading_at, place_at};
ghost use Rattle.page_rows.specs.Rows.{detail_note, labelled, maybe_cells, number_cell, number_cells, row_open, row_text, size_cells, title_cell, traffic_cells};

use crate::headings::{Sources, place_at};
use crate::row::{Detail, Row};
use crate::traffic::Traffic;
use html_text::put_text;
use page_parts::put_number_between;
use std::alloc::{AllocError, Global};

/// Appends a number in decimal between two texts.
#[tactic(auto, unfolding(crate::specs::Rows::labelled))]
pub fn put_labelled(
    alloc: Global,
    text: &mut Vec<u8>,
    before: &[u8],
    number: u64,
    behind: &[u8],
) -> Result<(), AllocError>
    ensures { OnOk result (text.new.items ≡ text.old.items ++ labelled before.now number behind.now) }
{
    put_number_between(alloc, text, before, number, behind)
}

fn put_number_cell(alloc: Global, text: &mut Vec<u8>, number: u64) -> Result<(), AllocError>
    ensures { OnOk result (text.new.items ≡ text.old.items ++ number_cell number) }
{
    put_labelled(alloc, text, b"<td>", number, b"</td>")
}

#[tactic(auto, unfolding(crate::specs::Rows::traffic_cells))]
fn put_traffic_cells(alloc: Global, text: &mut Vec<u8>, traffic: Traffic) -> Result<(), AllocError>
    ensures { OnOk result (text.new.items ≡ text.old.items ++ traffic_cells traffic) }
{
    put_number_cell(alloc, text, traffic.weight / 1_048_576)?;
    put_number_cell(alloc, text, traffic.stores as u64)?;
    put_number_cell(alloc, text, traffic.loads as u64)?;
    put_number_cell(alloc, text, traffic.moves as u64)
}

#[tactic(auto, unfolding(crate::specs::Rows::maybe_cells))]
fn put_maybe_cells(
    alloc: Global,
    text: &mut Vec<u8>,
    traffic: Option<Traffic>,
) -> Result<(), AllocError>
    ensures { OnOk result (text.new.items ≡ text.old.items ++ maybe_cells traffic) }
{
    match traffic {
        Some(traffic) => put_traffic_cells(alloc, text, traffic),
        None => Ok(()),
    }
}

#[tactic(auto, unfolding(crate::specs::Rows::size_cells))]
fn put_size_cells(alloc: Global, text: &mut Vec<u8>, row: Row) -> Result<(), AllocError>
    ensures { OnOk result (text.new.items ≡ text.old.items ++ size_cells row) }
{
    put_number_cell(alloc, text, row.blocks as u64)?;
    put_number_cell(alloc, text, u64::from(row.values))?;
    put_number_cell(alloc, text, row.traces as u64)
}

// Appends why a procedure is neither drawn nor tabled.
#[tactic(auto, unfolding(crate::specs::Rows::detail_note))]
pub(crate) fn put_detail_note(text: &mut Vec<u8>, detail: Detail) -> Result<(), AllocError>
    ensures { OnOk result (text.new.items ≡ text.old.items ++ detail_note detail) }
{
    match detail {
        Detail::Shown => Ok(()),
        Detail::Large => put_text(text, b" <em>not drawn: over 400 blocks</em>"),
        Detail::Late => put_text(
            text,
            b" <em>not drawn: the page has 200,000 lines of code</em>",
        ),
    }
}

// Appends what opens the row of a procedure.
#[tactic(auto, unfolding(crate::specs::Rows::row_open))]
fn put_row_open(alloc: Global, text: &mut Vec<u8>, number: usize) -> Result<(), AllocError>
    ensures { OnOk result (text.new.items ≡ text.old.items ++ row_open number) }
{
    let number = number as u64;
    put_labelled(
        alloc,
        text,
        b"<tr><td class=\"text\"><a href=\"#p",
        number,
        b"\">",
    )
}

// Appends a procedure's heading, which leads to its section.
#[tactic(auto, unfolding(crate::specs::Rows::title_cell))]
fn put_title_cell(
    alloc: Global,
    text: &mut Vec<u8>,
    sources: &Sources<'_>,
    row: Row,
) -> Result<(), AllocError>
    ensures { OnOk result (text.new.items ≡ text.old.items
        ++ title_cell (heading_at sources.now.texts.now (place_at sources.now.places.now row.number)) row) }
{
    let place = place_at(sources.places, row.number);
    put_row_open(alloc, text, row.number)?;
    sources.put_heading(text, place)?;
    put_text(text, b"</a>")?;
    put_detail_note(text, row.detail)?;
    put_text(text, b"</td>")
}

// Appends its size, and what its code moves.
#[tactic(auto, unfolding(crate::specs::Rows::number_cells))]
fn put_number_cells(alloc: Global, text: &mut Vec<u8>, row: Row) -> Result<(), AllocError>
    ensures { OnOk result (text.new.items ≡ text.old.items ++ number_cells row) }
{
    put_size_cells(alloc, text, row)?;
    put_traffic_cells(alloc, text, row.traffic)?;
    put_maybe_cells(alloc, text, row.other)
}

/// Appends the row of a procedure: its heading, which leads to its section, its size, and what its code moves.
#[tactic(auto, unfolding(crate::specs::Rows::row_text))]
pub fn put_row(
    alloc: Global,
    text: &mut Vec<u8>,
    sources: &Sources<'_>,
    row: Row,
) -> Result<(), AllocError>
    ensures { OnOk result (text.new.items ≡ text.old.items
        ++ row_text (heading_at sources.now.texts.now (place_at sources.now.places.now row.number)) row) }
{
    put_title_cell(alloc, text, sources, row)?;
    put_number_cells(alloc, text, row)?;
    put_text(text, b"</tr>\n")
}
