//! The tables of a procedure's traces.

ghost use Rattle.std.specs.Prelude.{◌≡◌, ◌++◌, drop, None, slice_get, slice_index_or, IfOk, OnOk};
ghost use Rattle.boundary_resolve.specs.Placing.{out_at};
ghost use Rattle.lir_core.specs.Flows.{node_at};
ghost use Rattle.trace_rows.specs.Rows.{plain_sheet, taken, node_rows, node_cursor, lines_behind, lines_behind_entry};
ghost use Rattle.trace_tables.specs.Counts.{with_nodes};
ghost use Rattle.trace_tables.specs.Counts as counts;
ghost use Rattle.trace_tables.specs.Tables.{plain_shown, sheet_of, seat_of, blocks_rows, lines_behind_blocks, blocks_cursor, heading, table_text, tables_from, first_cursor, entry_title, entry_table, tables_text};

use crate::counts::{Counts, counts_of};
use crate::headings::{put_numbers, put_table_close, put_table_open, put_title, put_which};
use crate::nothing::Nothing;
use crate::seats::{first_registers, seat_of};
use crate::shown::ShownProcedure;
use alloc_choice::Used;
use html_text::put_text;
use outside::Memory;
use std::alloc::{AllocError, Global};
use trace_report::greatest;
use trace_rows::{Cursor, Sheet, put_entry_row, put_entry_rows, put_node_rows};

// What all blocks of a procedure have in common.
fn sheet_of<'a>(shown: &ShownProcedure<'a>) -> Sheet<'a>
    ensures sheet { plain_sheet result ≡ sheet_of (plain_shown shown.now) }
    ensures widths { result.widths.now ≡ shown.now.widths.now }
{
    Sheet {
        procedure: shown.number,
        code: shown.code,
        widths: shown.widths,
    }
}

// The rows of a block; gives the line behind it.
fn put_block(
    alloc: Global,
    text: &mut Vec<u8>,
    shown: &ShownProcedure<'_>,
    nothing: &Nothing,
    trace: usize,
    place: usize,
    number: u32,
    from: usize,
    cursor: &mut Cursor,
) -> Result<usize, Memory>
    ensures text { OnOk result (text.new.items ≡ text.old.items ++ node_rows (sheet_of (plain_shown shown.now)) (seat_of (plain_shown shown.now) trace place number) (drop from shown.now.lines.now) cursor.old) }
    ensures cursor { OnOk result (cursor.new ≡ node_cursor shown.now.widths.now (node_at shown.now.flow.now.nodes number).lirs (drop from shown.now.lines.now) cursor.old) }
    ensures behind { IfOk result (λ at. drop at shown.now.lines.now ≡ lines_behind (drop from shown.now.lines.now)) }
{
    let sheet = sheet_of(shown);
    let seat = seat_of(shown, nothing, trace, place, number);
    put_node_rows(alloc, text, &sheet, &seat, shown.lines, from, cursor)
}

// The rows of a trace's blocks; gives the line behind them.
fn put_blocks_rows(
    alloc: Global,
    text: &mut Vec<u8>,
    shown: &ShownProcedure<'_>,
    nothing: &Nothing,
    trace: usize,
    blocks: &[u32],
    from: usize,
    cursor: &mut Cursor,
) -> Result<usize, Memory>
    ensures text { OnOk result (text.new.items ≡ text.old.items ++ blocks_rows (plain_shown shown.now) trace 0 blocks.now (drop from shown.now.lines.now) cursor.old) }
    ensures cursor { OnOk result (cursor.new ≡ blocks_cursor (plain_shown shown.now) blocks.now (drop from shown.now.lines.now) cursor.old) }
    ensures behind { IfOk result (λ at. drop at shown.now.lines.now ≡ lines_behind_blocks blocks.now (drop from shown.now.lines.now)) }
{
    let mut at = from;
    for place in 0..blocks.len() {
        at = put_block(
            alloc,
            text,
            shown,
            nothing,
            trace,
            place,
            blocks[place],
            at,
            cursor,
        )?;
    }
    Ok(at)
}

fn policy_of(shown: &ShownProcedure<'_>, trace: usize) -> Option<Used>
    ensures { result ≡ slice_get shown.now.policies.now trace }
{
    shown.policies.get(trace).copied()
}

fn parent_of(shown: &ShownProcedure<'_>, trace: usize) -> Option<u32>
    ensures { result ≡ slice_index_or shown.now.parents.now trace None }
{
    match shown.parents.get(trace) {
        Some(parent) => *parent,
        None => None,
    }
}

fn counts_at(shown: &ShownProcedure<'_>, trace: usize) -> Result<Counts, Memory>
    ensures { IfOk result (λ c. c ≡ with_nodes counts.none (out_at shown.now.outs.now trace).lines) }
{
    match shown.outs.get(trace) {
        Some(out) => counts_of(out.lines.as_slice()),
        None => counts_of(&[]),
    }
}

#[tactic(auto, unfolding(crate::specs::Tables::heading))]
fn put_heading(
    alloc: Global,
    text: &mut Vec<u8>,
    shown: &ShownProcedure<'_>,
    trace: usize,
    blocks: &[u32],
) -> Result<(), Memory>
    ensures { OnOk result (text.new.items ≡ text.old.items ++ heading (plain_shown shown.now) trace blocks.now) }
{
    let most = greatest(shown.flow, blocks);
    let found = counts_at(shown, trace)?;
    put_title(alloc, text, trace)?;
    put_which(alloc, text, policy_of(shown, trace), blocks, most)?;
    put_numbers(alloc, text, found, parent_of(shown, trace))?;
    Ok(())
}

// The table of a trace; gives the line behind it.
#[tactic(auto, unfolding(crate::specs::Tables::table_text))]
fn put_table(
    alloc: Global,
    text: &mut Vec<u8>,
    shown: &ShownProcedure<'_>,
    nothing: &Nothing,
    trace: usize,
    blocks: &[u32],
    from: usize,
    cursor: &mut Cursor,
) -> Result<usize, Memory>
    ensures text { OnOk result (text.new.items ≡ text.old.items ++ table_text (plain_shown shown.now) trace blocks.now (drop from shown.now.lines.now) cursor.old) }
    ensures cursor { OnOk result (cursor.new ≡ blocks_cursor (plain_shown shown.now) blocks.now (drop from shown.now.lines.now) cursor.old) }
    ensures behind { IfOk result (λ at. drop at shown.now.lines.now ≡ lines_behind_blocks blocks.now (drop from shown.now.lines.now)) }
{
    put_heading(alloc, text, shown, trace, blocks)?;
    put_table_open(alloc, text, shown.registers)?;
    let at = put_blocks_rows(alloc, text, shown, nothing, trace, blocks, from, cursor)?;
    put_table_close(text)?;
    Ok(at)
}

// The tables of all traces.
fn put_all_tables(
    alloc: Global,
    text: &mut Vec<u8>,
    shown: &ShownProcedure<'_>,
    from: usize,
    cursor: &mut Cursor,
) -> Result<(), Memory>
    ensures { OnOk result (text.new.items ≡ text.old.items ++ tables_from (plain_shown shown.now) 0 shown.now.traces.now (drop from shown.now.lines.now) cursor.old) }
{
    let nothing = Nothing::new(alloc);
    let mut at = from;
    for trace in 0..shown.traces.len() {
        let blocks = shown.traces[trace].nodes.as_slice();
        at = put_table(alloc, text, shown, &nothing, trace, blocks, at, cursor)?;
    }
    Ok(())
}

#[tactic(auto, unfolding(crate::specs::Tables::entry_title))]
fn put_entry_title(text: &mut Vec<u8>) -> Result<(), AllocError>
    ensures { OnOk result (text.new.items ≡ text.old.items ++ entry_title) }
{
    put_text(text, b"<h3><b>entry</b></h3>\n")
}

// What stands before the traces; gives the line behind it.
#[tactic(auto, unfolding(crate::specs::Tables::entry_table))]
fn put_entry_table(
    alloc: Global,
    text: &mut Vec<u8>,
    shown: &ShownProcedure<'_>,
    cursor: &mut Cursor,
) -> Result<usize, Memory>
    ensures text { cursor.old ≡ first_cursor shown.now.entry → OnOk result (text.new.items ≡ text.old.items ++ entry_table (plain_shown shown.now)) }
    ensures cursor { OnOk result (cursor.new ≡ taken shown.now.widths.now cursor.old) }
    ensures behind { IfOk result (λ at. drop at shown.now.lines.now ≡ lines_behind_entry shown.now.lines.now) }
{
    let sheet = sheet_of(shown);
    let regs = first_registers(shown);
    put_entry_title(text)?;
    put_table_open(alloc, text, shown.registers)?;
    put_entry_row(alloc, text, &sheet, cursor, regs)?;
    let at = put_entry_rows(alloc, text, shown.lines, regs)?;
    put_table_close(text)?;
    Ok(at)
}

/// Appends the tables of a procedure's traces: that of its entry, and one for each trace. Takes time in proportion to the lines
/// and the registers.
pub fn put_tables(
    alloc: Global,
    text: &mut Vec<u8>,
    shown: &ShownProcedure<'_>,
) -> Result<(), Memory>
    ensures { OnOk result (text.new.items ≡ text.old.items ++ tables_text (plain_shown shown.now)) }
{
    let mut cursor = Cursor {
        word: shown.entry as usize,
        part: 0,
        used: 0,
        begun: false,
    };
    let from = put_entry_table(alloc, text, shown, &mut cursor)?;
    put_all_tables(alloc, text, shown, from, &mut cursor)
}
