//! Moves in order.

ghost use Rattle.std.specs.Prelude.{◌≡◌, ℕ, ◌<◌, ◌≤◌, length, List, true, IfOk, OnOk, filter};
ghost use Rattle.lir_core.specs.Lines.{AreDistinct};
ghost use Rattle.parallel_move.specs.declared.step.Step.{Step};
ghost use Rattle.parallel_move.specs.Steps.{CarriesOut};
ghost use Rattle.parallel_move.specs.Order.{is_moving, order_of};
ghost use Rattle.parallel_move.specs.Writers.{writer_of};
ghost use Rattle.parallel_move.specs.Entries.{entry_at, AreWriters, Breaks, MakesAlong, AreNew, AreUnread, AreCounted, FewReaders, with_reader, Ordering, OnlyFree, NoneFree, AllMade, StayMade};

use crate::entry::{Entry, free_before, make, save};
use crate::step::Step;
use crate::writers::Writers;
use lir_core::Move;
use outside::Memory;
use std::alloc::{AllocError, Global};

/// The steps that do what moves do all at once, where no two of them go to one place. Takes n log n for n moves.
pub fn order(alloc: Global, moves: &[Move]) -> Result<Vec<Step>, Memory>
    ensures steps { AreDistinct moves.now → IfOk result (λ steps. steps.items ≡ order_of moves.now) }
    ensures carries { AreDistinct moves.now → IfOk result (λ steps. CarriesOut steps.items moves.now) }
{
    let mut entries = new_entries(alloc, moves)?;
    let entries = entries.as_mut_slice();
    let mut steps = Vec::new(alloc);
    count_readers(entries);
    make_free(entries, &mut steps)?;
    break_cycles(entries, &mut steps)?;
    Ok(steps)
}

// The table of the moves that aren't from a place to itself, without readers.
fn new_entries(alloc: Global, moves: &[Move]) -> Result<Vec<Entry>, AllocError>
    ensures { IfOk result (λ entries. let moves' = filter is_moving moves.now in AreNew moves' (length moves') entries.items) }
{
    let moves = moving(alloc, moves)?;
    let writers = Writers::of(alloc, moves.as_slice())?;
    entries_of(alloc, moves.as_slice(), &writers)
}

fn moving(alloc: Global, moves: &[Move]) -> Result<Vec<Move>, AllocError>
    ensures { IfOk result (λ moving. moving.items ≡ filter is_moving moves.now) }
{
    moves
        .iter()
        .copied()
        .filter(|m| m.to != m.from)
        .collect(alloc)
}

fn entries_of(alloc: Global, moves: &[Move], writers: &Writers) -> Result<Vec<Entry>, AllocError>
    ensures { AreWriters moves.now (length moves.now) (writer_of writers.now) → IfOk result (λ entries. AreNew moves.now (length moves.now) entries.items) }
{
    let mut entries = Vec::with_capacity(alloc, moves.len())?;
    for m in moves {
        entries.push(Entry {
            to: m.to,
            from: m.from,
            writer: writers.at(m.from),
            readers: 0,
            saved: false,
            made: false,
        })?;
    }
    Ok(entries)
}

fn count_readers(entries: &mut [Entry])
    requires { AreUnread entries.old }
    ensures { AreCounted (length entries.old) entries.old entries.new }
{
    for i in 0..entries.len() {
        let writer = entries[i].writer;
        add_reader(entries, writer);
    }
}

// A move has a reader more.
fn add_reader(entries: &mut [Entry], writer: Option<usize>)
    requires { FewReaders entries.old }
    ensures { entries.new ≡ with_reader entries.old writer }
{
    if let Some(j) = writer
        && j < entries.len()
    {
        entries[j].readers += 1;
    }
}

// Makes the moves that can be made without X16: no move that is left is free then.
fn make_free(entries: &mut [Entry], steps: &mut Vec<Step>) -> Result<(), AllocError>
    ensures length { length entries.new ≡ length entries.old }
    ensures steps { OnOk result ((all : List Step) → Ordering all entries.old steps.old.items
        → Ordering all entries.new steps.new.items × NoneFree entries.new (length entries.new)) }
{
    for i in 0..entries.len() {
        make_along(entries, steps, Some(i), i + 1)?;
    }
    Ok(())
}

// Makes the moves that are left, all of them in cycles.
fn break_cycles(entries: &mut [Entry], steps: &mut Vec<Step>) -> Result<(), AllocError>
    ensures { OnOk result ((all : List Step) → Ordering all entries.old steps.old.items → NoneFree entries.old (length entries.old) → steps.new.items ≡ all) }
{
    for i in 0..entries.len() {
        if !entries[i].made {
            break_cycle(entries, steps, i)?;
        }
    }
    Ok(())
}

// Saves the destination of a move, and makes the move and the others of its cycle.
fn break_cycle(entries: &mut [Entry], steps: &mut Vec<Step>, i: usize) -> Result<(), AllocError>
    requires { i < length entries.old }
    ensures made { OnOk result (StayMade entries.old entries.new × ((entry_at entries.new i).made ≡ true)) }
    ensures steps { OnOk result (Breaks i entries.old steps.old.items entries.new steps.new.items) }
{
    save(entries, steps, i)?;
    make(entries, steps, i)?;
    let writer = entries[i].writer;
    let bound = entries.len();
    make_along(entries, steps, writer, bound)
}

// Makes the next move, if it stands before a bound and is free, then the one that this frees, and so on. Where no other
// before the bound was free, none is free then.
fn make_along(
    entries: &mut [Entry],
    steps: &mut Vec<Step>,
    first: Option<usize>,
    bound: usize,
) -> Result<(), AllocError>
    requires { bound ≤ length entries.old }
    ensures made { OnOk result (StayMade entries.old entries.new) }
    ensures steps { OnOk result (MakesAlong first bound entries.old steps.old.items entries.new steps.new.items) }
{
    let mut next = first;
    while let Some(i) = free_before(entries, next, bound) {
        make(entries, steps, i)?;
        next = entries[i].writer;
    }
    Ok(())
}
