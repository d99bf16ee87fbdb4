//! How many stores, loads and moves the lines of a trace have.

ghost use Rattle.std.specs.Prelude.{◌≡◌, ◌+◌, IfOk};
ghost use Rattle.lir_core.specs.Spots.{same, spot};
ghost use Rattle.trace_tables.specs.Counts.{none, moves_in, with_line, with_lines, with_nodes};

use lir_core::{Items, Line, Move, Place};
use outside::Memory;

/// How many stores, loads and moves there are.
#[derive(Clone, Copy)]
pub struct Counts {
    pub stores: usize,
    pub loads: usize,
    pub moves: usize,
}

// Whether two places are one.
fn are_same(one: Place, other: Place) -> bool
    ensures { result ≡ same (spot one) (spot other) }
{
    match (one, other) {
        (Place::Reg(a), Place::Reg(b)) => a == b,
        (Place::Home(a), Place::Home(b)) => a == b,
        (Place::Out(a), Place::Out(b)) => a == b,
        _ => false,
    }
}

fn moves_in(moves: &[Move]) -> usize
    ensures { result ≡ moves_in moves.now }
{
    let mut count = 0;
    for next in moves {
        if !are_same(next.to, next.from) {
            count += 1;
        }
    }
    count
}

// So many, and so many more.
fn total(count: usize, more: usize) -> Result<usize, Memory>
    ensures { IfOk result (λ n. n ≡ count + more) }
{
    count.checked_add(more).ok_or(Memory)
}

fn with_store(counts: Counts) -> Result<Counts, Memory>
    ensures { IfOk result (λ c. c ≡ record counts { stores = counts.stores + 1 }) }
{
    Ok(Counts {
        stores: total(counts.stores, 1)?,
        loads: counts.loads,
        moves: counts.moves,
    })
}

fn with_load(counts: Counts) -> Result<Counts, Memory>
    ensures { IfOk result (λ c. c ≡ record counts { loads = counts.loads + 1 }) }
{
    Ok(Counts {
        stores: counts.stores,
        loads: total(counts.loads, 1)?,
        moves: counts.moves,
    })
}

fn with_moves(counts: Counts, more: usize) -> Result<Counts, Memory>
    ensures { IfOk result (λ c. c ≡ record counts { moves = counts.moves + more }) }
{
    Ok(Counts {
        stores: counts.stores,
        loads: counts.loads,
        moves: total(counts.moves, more)?,
    })
}

fn with_line(counts: Counts, line: &Line) -> Result<Counts, Memory>
    ensures { IfOk result (λ c. c ≡ with_line counts line.now) }
{
    match line {
        Line::Lir(_) => Ok(counts),
        Line::Store { .. } => with_store(counts),
        Line::Load { .. } => with_load(counts),
        Line::Moves(moves) => with_moves(counts, moves_in(moves.as_slice())),
        Line::Result(_) | Line::Target(_) => with_moves(counts, 1),
    }
}

fn with_lines(counts: Counts, lines: &[Line]) -> Result<Counts, Memory>
    ensures { IfOk result (λ c. c ≡ with_lines counts lines.now) }
{
    let mut all = counts;
    for line in lines {
        all = with_line(all, line)?;
    }
    Ok(all)
}

/// What the lines of these nodes have.
pub(crate) fn counts_of(nodes: &[Items<Line>]) -> Result<Counts, Memory>
    ensures { IfOk result (λ c. c ≡ with_nodes none nodes.now) }
{
    let mut all = Counts {
        stores: 0,
        loads: 0,
        moves: 0,
    };
    for lines in nodes {
        all = with_lines(all, lines.as_slice())?;
    }
    Ok(all)
}
