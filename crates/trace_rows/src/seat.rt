//! What rows are made of, and how far they have come.

ghost use Rattle.std.specs.Prelude.{◌≡◌, ◌+◌, slice_get, IfOk};
ghost use Rattle.trace_rows.specs.Registers.{names_of};
ghost use Rattle.trace_rows.specs.Rows.{width_at, taken, fresh, started, cursor_behind, plain_seat, edge_name, named_next};

use crate::registers::names_of;
use lir_core::{Line, Lir, Node, Places};
use outside::Memory;

/// What all blocks of a procedure have in common: its number, the words of the code, and how many words each part of it has.
#[derive(Clone, Copy)]
pub struct Sheet<'a> {
    pub procedure: u32,
    pub code: &'a [u32],
    pub widths: &'a [u32],
}

/// How an edge is called.
#[derive(Clone, Copy)]
pub enum EdgeName {
    /// The procedure's entry.
    Entry,
    /// It leads to a block.
    To(u32),
    /// It leads to one of two blocks: where a block has no lines, the steps of the edge to it and of the edge from it stand one
    /// behind the other.
    Either(u32, u32),
}

/// A block in its trace: its number and its node, where it begins and ends, the registers named for it, and how the edges are
/// called whose steps stand before its lines and behind them.
#[derive(Clone, Copy)]
pub struct Seat<'a> {
    pub block: u32,
    pub node: &'a Node,
    pub start: &'a Places,
    pub end: &'a Places,
    pub named: &'a [u8],
    pub first_edge: EdgeName,
    pub last_edge: EdgeName,
}

/// How far the rows of a procedure have come: the next word of the code, the next of the parts that have words, how many of the
/// registers named for the block are used up, and whether a line of the block was there.
#[derive(Clone, Copy)]
pub struct Cursor {
    pub word: usize,
    pub part: usize,
    pub used: usize,
    pub begun: bool,
}

/// How many words the next part has.
pub(crate) fn width_at(widths: &[u32], cursor: Cursor) -> u32
    ensures { result ≡ width_at widths.now cursor }
{
    match widths.get(cursor.part) {
        Some(width) => *width,
        None => 0,
    }
}

// So many, and so many more.
fn total(count: usize, more: usize) -> Result<usize, Memory>
    ensures { IfOk result (λ n. n ≡ count + more) }
{
    count.checked_add(more).ok_or(Memory)
}

/// Behind a part that has words.
pub(crate) fn taken(widths: &[u32], cursor: Cursor) -> Result<Cursor, Memory>
    ensures { IfOk result (λ c. c ≡ taken widths.now cursor) }
{
    let word = total(cursor.word, width_at(widths, cursor) as usize)?;
    let part = total(cursor.part, 1)?;
    Ok(Cursor {
        word,
        part,
        used: cursor.used,
        begun: cursor.begun,
    })
}

/// At the begin of a block.
pub(crate) fn fresh(cursor: Cursor) -> Cursor
    ensures { result ≡ fresh cursor }
{
    Cursor {
        word: cursor.word,
        part: cursor.part,
        used: 0,
        begun: false,
    }
}

fn started(count: usize, cursor: Cursor) -> Result<Cursor, Memory>
    ensures { IfOk result (λ c. c ≡ started count cursor) }
{
    let used = total(cursor.used, count)?;
    Ok(Cursor {
        word: cursor.word,
        part: cursor.part,
        used,
        begun: true,
    })
}

fn behind_operation(
    widths: &[u32],
    ops: &[Lir],
    index: u32,
    cursor: Cursor,
) -> Result<Cursor, Memory>
    ensures { IfOk result (λ c. c ≡ taken widths.now (started (names_of (slice_get ops.now index)) cursor)) }
{
    let next = started(names_of(ops, index), cursor)?;
    taken(widths, next)
}

/// Behind a line of a block with these operations.
pub(crate) fn cursor_behind(
    widths: &[u32],
    ops: &[Lir],
    line: &Line,
    cursor: Cursor,
) -> Result<Cursor, Memory>
    ensures { IfOk result (λ c. c ≡ cursor_behind widths.now ops.now line.now cursor) }
{
    match line {
        Line::Lir(index) => behind_operation(widths, ops, *index, cursor),
        Line::Store { .. }
        | Line::Load { .. }
        | Line::Moves(_)
        | Line::Result(_)
        | Line::Target(_) => started(0, cursor),
    }
}

/// How the edge is called whose steps come next.
pub(crate) fn edge_name(seat: &Seat<'_>, cursor: Cursor) -> EdgeName
    ensures { result ≡ edge_name (plain_seat seat.now) cursor }
{
    if cursor.begun {
        seat.last_edge
    } else {
        seat.first_edge
    }
}

/// The registers named for what comes.
pub(crate) fn named_next<'a>(seat: &Seat<'a>, cursor: Cursor) -> &'a [u8]
    ensures { result.now ≡ named_next (plain_seat seat.now) cursor }
{
    &seat.named[cursor.used.min(seat.named.len())..]
}
