//! The rows of a block.

ghost use Rattle.std.specs.Prelude.{◌≡◌, ◌++◌, [], drop, OnOk, IfOk};
ghost use Rattle.trace_rows.specs.Registers.{hits};
ghost use Rattle.trace_rows.specs.Rows.{plain_sheet, plain_seat, cursor_behind, row_start, row_cells, row_words, part_words, head_start, params_text, head_front, head_row, edge_text, edge_front, edge_row, regs_behind, line_words, line_front, line_row, end_front, end_row, rows, node_rows, taken, lines_behind, rows_cursor, node_cursor, entry_front, entry_row, entry_rows, lines_behind_entry};
ghost use Rattle.trace_rows.specs.declared.seat.EdgeName.TheVariants as edge;

use crate::cells::{put_cells, put_homes, put_words};
use crate::marks::{
    put_cell_end, put_edge_to, put_head_begin, put_homes_begin, put_row_begin, put_row_end,
    put_text_begin, put_words_begin,
};
use crate::names::put_numbered;
use crate::operations::{put_end, put_value, put_values};
use crate::places::{kind_of, put_homed_behind, put_homed_by, put_line, put_step};
use crate::registers::{go_behind, hits, step_hits};
use crate::seat::{
    Cursor, EdgeName, Seat, Sheet, cursor_behind, edge_name, fresh, named_next, taken, width_at,
};
use boundary_resolve::{CodeLine, Step};
use html_text::{put_number, put_text};
use lir_core::{Leave, Line};
use outside::Memory;
use std::alloc::{AllocError, Global};

#[tactic(auto, unfolding(crate::specs::Rows::row_start))]
fn put_row_start(text: &mut Vec<u8>, kind: &[u8]) -> Result<(), AllocError>
    ensures { OnOk result (text.new.items ≡ text.old.items ++ row_start kind.now) }
{
    put_row_begin(text)?;
    put_text(text, kind)?;
    put_text_begin(text)
}

#[tactic(auto, unfolding(crate::specs::Rows::row_cells))]
fn put_row_cells(
    alloc: Global,
    text: &mut Vec<u8>,
    hits: &[u8],
    regs: &[Option<u32>],
) -> Result<(), AllocError>
    ensures { OnOk result (text.new.items ≡ text.old.items ++ row_cells hits.now regs.now) }
{
    put_cell_end(text)?;
    put_cells(alloc, text, hits, regs)?;
    put_homes_begin(text)
}

// The words of a row that has none.
#[tactic(auto, unfolding(crate::specs::Rows::row_words))]
fn put_no_words(text: &mut Vec<u8>) -> Result<(), AllocError>
    ensures { OnOk result (text.new.items ≡ text.old.items ++ row_words []) }
{
    put_words_begin(text)?;
    put_row_end(text)
}

// The words of the part of the code that comes next.
#[tactic(auto, unfolding(crate::specs::Rows::row_words))]
fn put_part_words(
    alloc: Global,
    text: &mut Vec<u8>,
    sheet: &Sheet<'_>,
    cursor: Cursor,
) -> Result<(), Memory>
    ensures { OnOk result (text.new.items ≡ text.old.items ++ row_words (part_words (plain_sheet sheet.now) cursor)) }
{
    let width = width_at(sheet.widths, cursor);
    put_words_begin(text)?;
    put_words(alloc, text, sheet.code, cursor.word, width)?;
    put_row_end(text)?;
    Ok(())
}

#[tactic(auto, unfolding(crate::specs::Rows::head_start))]
fn put_head_start(
    alloc: Global,
    text: &mut Vec<u8>,
    procedure: u32,
    block: u32,
) -> Result<(), AllocError>
    ensures { OnOk result (text.new.items ≡ text.old.items ++ head_start procedure block) }
{
    put_head_begin(text)?;
    put_number(alloc, text, u64::from(procedure))?;
    put_text(text, b"-b")?;
    put_number(alloc, text, u64::from(block))?;
    put_text_begin(text)
}

#[tactic(auto, unfolding(crate::specs::Rows::params_text))]
fn put_params(alloc: Global, text: &mut Vec<u8>, params: &[u32]) -> Result<(), AllocError>
    ensures { OnOk result (text.new.items ≡ text.old.items ++ params_text params.now) }
{
    match params {
        [] => Ok(()),
        [first, more @ ..] => {
            put_text(text, b"(")?;
            put_value(alloc, text, *first)?;
            put_values(alloc, text, more)?;
            put_text(text, b")")
        }
    }
}

#[tactic(auto, unfolding(crate::specs::Rows::head_front))]
fn put_head_front(
    alloc: Global,
    text: &mut Vec<u8>,
    procedure: u32,
    seat: &Seat<'_>,
) -> Result<(), AllocError>
    ensures { OnOk result (text.new.items ≡ text.old.items ++ head_front procedure (plain_seat seat.now)) }
{
    put_head_start(alloc, text, procedure, seat.block)?;
    put_numbered(alloc, text, b"block", u64::from(seat.block))?;
    put_params(alloc, text, seat.node.params.as_slice())
}

// The first row, with the places where the block begins.
#[tactic(auto, unfolding(crate::specs::Rows::head_row))]
fn put_head_row(
    alloc: Global,
    text: &mut Vec<u8>,
    procedure: u32,
    seat: &Seat<'_>,
) -> Result<(), AllocError>
    ensures { OnOk result (text.new.items ≡ text.old.items ++ head_row procedure (plain_seat seat.now)) }
{
    put_head_front(alloc, text, procedure, seat)?;
    put_row_cells(alloc, text, &[], seat.start.regs.as_slice())?;
    put_homes(alloc, text, seat.start.homed.as_slice())?;
    put_no_words(text)
}

#[tactic(auto, unfolding(crate::specs::Rows::edge_text))]
fn put_one_edge(alloc: Global, text: &mut Vec<u8>, block: u32) -> Result<(), AllocError>
    ensures { OnOk result (text.new.items ≡ text.old.items ++ edge_text (edge.To block)) }
{
    put_edge_to(text)?;
    put_number(alloc, text, u64::from(block))?;
    put_text(text, b": ")
}

#[tactic(auto, unfolding(crate::specs::Rows::edge_text))]
fn put_either_edge(
    alloc: Global,
    text: &mut Vec<u8>,
    one: u32,
    other: u32,
) -> Result<(), AllocError>
    ensures { OnOk result (text.new.items ≡ text.old.items ++ edge_text (edge.Either one other)) }
{
    put_edge_to(text)?;
    put_number(alloc, text, u64::from(one))?;
    put_text(text, b" or ")?;
    put_number(alloc, text, u64::from(other))?;
    put_text(text, b": ")
}

#[tactic(auto, unfolding(crate::specs::Rows::edge_text))]
fn put_edge_name(alloc: Global, text: &mut Vec<u8>, name: EdgeName) -> Result<(), AllocError>
    ensures { OnOk result (text.new.items ≡ text.old.items ++ edge_text name) }
{
    match name {
        EdgeName::Entry => put_text(text, b"entry: "),
        EdgeName::To(block) => put_one_edge(alloc, text, block),
        EdgeName::Either(one, other) => put_either_edge(alloc, text, one, other),
    }
}

#[tactic(auto, unfolding(crate::specs::Rows::edge_front))]
fn put_edge_front(
    alloc: Global,
    text: &mut Vec<u8>,
    name: EdgeName,
    step: Step,
) -> Result<(), AllocError>
    ensures { OnOk result (text.new.items ≡ text.old.items ++ edge_front name step) }
{
    put_row_start(text, b"move")?;
    put_edge_name(alloc, text, name)?;
    put_step(alloc, text, step)
}

// A step of an edge.
#[tactic(auto, unfolding(crate::specs::Rows::edge_row))]
fn put_edge_row(
    alloc: Global,
    text: &mut Vec<u8>,
    name: EdgeName,
    step: Step,
    regs: &[Option<u32>],
) -> Result<(), AllocError>
    ensures { OnOk result (text.new.items ≡ text.old.items ++ edge_row name step regs.now) }
{
    let named = step_hits(alloc, step)?;
    put_edge_front(alloc, text, name, step)?;
    put_row_cells(alloc, text, named.as_slice(), regs)?;
    put_homed_behind(alloc, text, step)?;
    put_no_words(text)
}

fn put_line_words(
    alloc: Global,
    text: &mut Vec<u8>,
    sheet: &Sheet<'_>,
    line: &Line,
    cursor: Cursor,
) -> Result<(), Memory>
    ensures { OnOk result (text.new.items ≡ text.old.items ++ row_words (line_words (plain_sheet sheet.now) line.now cursor)) }
{
    match line {
        Line::Lir(_) => put_part_words(alloc, text, sheet, cursor),
        Line::Store { .. }
        | Line::Load { .. }
        | Line::Moves(_)
        | Line::Result(_)
        | Line::Target(_) => {
            put_no_words(text)?;
            Ok(())
        }
    }
}

#[tactic(auto, unfolding(crate::specs::Rows::line_front))]
fn put_line_front(
    alloc: Global,
    text: &mut Vec<u8>,
    seat: &Seat<'_>,
    line: &Line,
) -> Result<(), AllocError>
    ensures { OnOk result (text.new.items ≡ text.old.items ++ line_front (plain_seat seat.now) line.now) }
{
    put_row_start(text, kind_of(line))?;
    put_line(alloc, text, seat.node.lirs.as_slice(), line)
}

// A line, with what registers have behind it.
#[tactic(auto, unfolding(crate::specs::Rows::line_row))]
fn put_line_row(
    alloc: Global,
    text: &mut Vec<u8>,
    sheet: &Sheet<'_>,
    seat: &Seat<'_>,
    line: &Line,
    cursor: Cursor,
    regs: &[Option<u32>],
) -> Result<(), Memory>
    ensures { OnOk result (text.new.items ≡ text.old.items ++ line_row (plain_sheet sheet.now) (plain_seat seat.now) line.now cursor regs.now) }
{
    let named = hits(
        alloc,
        seat.node.lirs.as_slice(),
        named_next(seat, cursor),
        line,
    )?;
    put_line_front(alloc, text, seat, line)?;
    put_row_cells(alloc, text, named.as_slice(), regs)?;
    put_homed_by(alloc, text, line)?;
    put_line_words(alloc, text, sheet, line, cursor)
}

// The registers and the cursor go on behind a line, and its row is appended.
fn put_body(
    alloc: Global,
    text: &mut Vec<u8>,
    sheet: &Sheet<'_>,
    seat: &Seat<'_>,
    line: &Line,
    cursor: &mut Cursor,
    regs: &mut [Option<u32>],
) -> Result<(), Memory>
    ensures text { OnOk result (text.new.items ≡ text.old.items ++ line_row (plain_sheet sheet.now) (plain_seat seat.now) line.now cursor.old (regs_behind (plain_seat seat.now) line.now cursor.old regs.old)) }
    ensures cursor { OnOk result (cursor.new ≡ cursor_behind sheet.now.widths.now seat.now.node.now.lirs line.now cursor.old) }
    ensures regs { OnOk result (regs.new ≡ regs_behind (plain_seat seat.now) line.now cursor.old regs.old) }
{
    let ops = seat.node.lirs.as_slice();
    go_behind(alloc, regs, ops, named_next(seat, *cursor), line)?;
    put_line_row(alloc, text, sheet, seat, line, *cursor, regs)?;
    *cursor = cursor_behind(sheet.widths, ops, line, *cursor)?;
    Ok(())
}

#[tactic(auto, unfolding(crate::specs::Rows::end_front))]
fn put_end_front(alloc: Global, text: &mut Vec<u8>, end: &Leave) -> Result<(), AllocError>
    ensures { OnOk result (text.new.items ≡ text.old.items ++ end_front end.now) }
{
    put_row_start(text, b"end")?;
    put_end(alloc, text, end)
}

// The end, with the places where the block ends.
#[tactic(auto, unfolding(crate::specs::Rows::end_row))]
fn put_end_row(
    alloc: Global,
    text: &mut Vec<u8>,
    sheet: &Sheet<'_>,
    seat: &Seat<'_>,
    cursor: Cursor,
) -> Result<(), Memory>
    ensures { OnOk result (text.new.items ≡ text.old.items ++ end_row (plain_sheet sheet.now) (plain_seat seat.now) cursor) }
{
    put_end_front(alloc, text, &seat.node.end)?;
    put_row_cells(alloc, text, &[], seat.end.regs.as_slice())?;
    put_part_words(alloc, text, sheet, cursor)
}

// The rows of a block from a line on; gives the line behind its end.
fn put_rows(
    alloc: Global,
    text: &mut Vec<u8>,
    sheet: &Sheet<'_>,
    seat: &Seat<'_>,
    lines: &[CodeLine],
    from: usize,
    cursor: &mut Cursor,
    regs: &mut [Option<u32>],
) -> Result<usize, Memory>
    ensures text { OnOk result (text.new.items ≡ text.old.items ++ rows (plain_sheet sheet.now) (plain_seat seat.now) (drop from lines.now) cursor.old regs.old) }
    ensures cursor { OnOk result (cursor.new ≡ rows_cursor sheet.now.widths.now seat.now.node.now.lirs (drop from lines.now) cursor.old) }
    ensures behind { IfOk result (λ at. drop at lines.now ≡ lines_behind (drop from lines.now)) }
{
    for at in from..lines.len() {
        match &lines[at] {
            CodeLine::Node(_) => {}
            CodeLine::Edge(step) => {
                put_edge_row(alloc, text, edge_name(seat, *cursor), *step, regs)?;
            }
            CodeLine::Body(line) => {
                put_body(alloc, text, sheet, seat, line, cursor, regs)?;
            }
            CodeLine::Leave(_) => {
                put_end_row(alloc, text, sheet, seat, *cursor)?;
                *cursor = taken(sheet.widths, *cursor)?;
                return Ok(at + 1);
            }
        }
    }
    Ok(lines.len())
}

/// Appends the rows of a block whose lines stand from a line on; gives the line behind its end. Takes time in proportion to the
/// rows and the registers.
#[tactic(auto, unfolding(crate::specs::Rows::node_rows))]
pub fn put_node_rows(
    alloc: Global,
    text: &mut Vec<u8>,
    sheet: &Sheet<'_>,
    seat: &Seat<'_>,
    lines: &[CodeLine],
    from: usize,
    cursor: &mut Cursor,
) -> Result<usize, Memory>
    ensures text { OnOk result (text.new.items ≡ text.old.items ++ node_rows (plain_sheet sheet.now) (plain_seat seat.now) (drop from lines.now) cursor.old) }
    ensures cursor { OnOk result (cursor.new ≡ node_cursor sheet.now.widths.now seat.now.node.now.lirs (drop from lines.now) cursor.old) }
    ensures behind { IfOk result (λ at. drop at lines.now ≡ lines_behind (drop from lines.now)) }
{
    let mut regs = Vec::from_slice(alloc, seat.start.regs.as_slice())?;
    put_head_row(alloc, text, sheet.procedure, seat)?;
    *cursor = fresh(*cursor);
    put_rows(alloc, text, sheet, seat, lines, from, cursor, &mut regs)
}

#[tactic(auto, unfolding(crate::specs::Rows::entry_front))]
fn put_entry_front(text: &mut Vec<u8>) -> Result<(), AllocError>
    ensures { OnOk result (text.new.items ≡ text.old.items ++ entry_front) }
{
    put_row_start(text, b"op")?;
    put_text(text, b"entry")
}

/// Appends the row of a procedure's entry, with its words.
#[tactic(auto, unfolding(crate::specs::Rows::entry_row))]
pub fn put_entry_row(
    alloc: Global,
    text: &mut Vec<u8>,
    sheet: &Sheet<'_>,
    cursor: &mut Cursor,
    regs: &[Option<u32>],
) -> Result<(), Memory>
    ensures text { OnOk result (text.new.items ≡ text.old.items ++ entry_row (plain_sheet sheet.now) cursor.old regs.now) }
    ensures cursor { OnOk result (cursor.new ≡ taken sheet.now.widths.now cursor.old) }
{
    put_entry_front(text)?;
    put_row_cells(alloc, text, &[], regs)?;
    put_part_words(alloc, text, sheet, *cursor)?;
    *cursor = taken(sheet.widths, *cursor)?;
    Ok(())
}

/// Appends the rows of the steps of the entry's edge; gives the line behind them.
pub fn put_entry_rows(
    alloc: Global,
    text: &mut Vec<u8>,
    lines: &[CodeLine],
    regs: &[Option<u32>],
) -> Result<usize, AllocError>
    ensures text { OnOk result (text.new.items ≡ text.old.items ++ entry_rows lines.now regs.now) }
    ensures behind { IfOk result (λ at. drop at lines.now ≡ lines_behind_entry lines.now) }
{
    for at in 0..lines.len() {
        match &lines[at] {
            CodeLine::Edge(step) => {
                put_edge_row(alloc, text, EdgeName::Entry, *step, regs)?;
            }
            _ => return Ok(at),
        }
    }
    Ok(lines.len())
}
