//! What lines of code move, store and load.

ghost use Rattle.std.specs.Prelude.{◌≡◌, ◌+◌, map, sum_by, IfOk, OnOk};
ghost use Rattle.program_figures.specs.Lines.{home_count, is_home, loads_in, loads_of_line, loads_of_step, moves_in, over_all, stores_in, stores_of_line, stores_of_step};

use boundary_resolve::{CodeLine, Step};
use lir_core::{Line, Place};
use outside::Memory;

/// How many moves, stores and loads there are.
#[derive(Clone, Copy)]
pub(crate) struct LineCounts {
    pub(crate) moves: u64,
    pub(crate) stores: u64,
    pub(crate) loads: u64,
}

// Whether a place is a home.
fn is_home(place: Place) -> bool
    ensures { result ≡ is_home place }
{
    matches!(place, Place::Home(_))
}

// 1 for a home, else 0.
fn home_count(place: Place) -> u64
    ensures { result ≡ home_count place }
{
    if is_home(place) { 1 } else { 0 }
}

// How many moves on edges a line is.
fn moves_in(line: &CodeLine) -> u64
    ensures { result ≡ moves_in line.now }
{
    match line {
        CodeLine::Edge(_) => 1,
        _ => 0,
    }
}

// How many homes a step writes.
fn stores_of_step(step: Step) -> u64
    ensures { result ≡ stores_of_step step }
{
    match step {
        Step::Copy { to, .. } => home_count(to),
        Step::Save(_) => 0,
        Step::Restore(to) => home_count(to),
    }
}

// How many homes a line of a node writes.
fn stores_of_line(line: &Line) -> u64
    ensures { result ≡ stores_of_line line.now }
{
    match line {
        Line::Store { .. } => 1,
        _ => 0,
    }
}

// How many homes a line writes.
fn stores_in(line: &CodeLine) -> u64
    ensures { result ≡ stores_in line.now }
{
    match line {
        CodeLine::Body(line) => stores_of_line(line),
        CodeLine::Edge(step) => stores_of_step(*step),
        _ => 0,
    }
}

// How many homes a step reads.
fn loads_of_step(step: Step) -> u64
    ensures { result ≡ loads_of_step step }
{
    match step {
        Step::Copy { from, .. } => home_count(from),
        Step::Save(from) => home_count(from),
        Step::Restore(_) => 0,
    }
}

// How many homes a line of a node reads.
fn loads_of_line(line: &Line) -> u64
    ensures { result ≡ loads_of_line line.now }
{
    match line {
        Line::Load { .. } => 1,
        Line::Moves(moves) => moves.as_slice().iter().filter(|m| is_home(m.from)).count() as u64,
        Line::Target(place) => home_count(*place),
        _ => 0,
    }
}

// How many homes a line reads.
fn loads_in(line: &CodeLine) -> u64
    ensures { result ≡ loads_in line.now }
{
    match line {
        CodeLine::Body(line) => loads_of_line(line),
        CodeLine::Edge(step) => loads_of_step(*step),
        _ => 0,
    }
}

// A sum, where it fits 64 bits.
fn added(count: u64, more: u64) -> Result<u64, Memory>
    ensures { IfOk result (λ sum. sum ≡ count + more) }
{
    count.checked_add(more).ok_or(Memory)
}

// Counts a line.
fn count_line(counts: &mut LineCounts, line: &CodeLine) -> Result<(), Memory>
    ensures moves { OnOk result (counts.new.moves ≡ counts.old.moves + moves_in line.now) }
    ensures stores { OnOk result (counts.new.stores ≡ counts.old.stores + stores_in line.now) }
    ensures loads { OnOk result (counts.new.loads ≡ counts.old.loads + loads_in line.now) }
{
    counts.moves = added(counts.moves, moves_in(line))?;
    counts.stores = added(counts.stores, stores_in(line))?;
    counts.loads = added(counts.loads, loads_in(line))?;
    Ok(())
}

// Counts the lines of a procedure.
fn count_lines(counts: &mut LineCounts, lines: &[CodeLine]) -> Result<(), Memory>
    ensures moves { OnOk result (counts.new.moves ≡ counts.old.moves + sum_by moves_in lines.now) }
    ensures stores { OnOk result (counts.new.stores ≡ counts.old.stores + sum_by stores_in lines.now) }
    ensures loads { OnOk result (counts.new.loads ≡ counts.old.loads + sum_by loads_in lines.now) }
{
    for line in lines {
        count_line(counts, line)?;
    }
    Ok(())
}

/// How many moves, stores and loads the lines of all procedures have. For over 2^64 - 1 of one kind there is no memory.
pub(crate) fn line_counts(parts: &[Vec<CodeLine>]) -> Result<LineCounts, Memory>
    ensures moves { IfOk result (λ counts. counts.moves ≡ over_all moves_in (map (λ v. v.items) parts.now)) }
    ensures stores { IfOk result (λ counts. counts.stores ≡ over_all stores_in (map (λ v. v.items) parts.now)) }
    ensures loads { IfOk result (λ counts. counts.loads ≡ over_all loads_in (map (λ v. v.items) parts.now)) }
{
    let mut counts = LineCounts {
        moves: 0,
        stores: 0,
        loads: 0,
    };
    for lines in parts {
        count_lines(&mut counts, lines.as_slice())?;
    }
    Ok(counts)
}
