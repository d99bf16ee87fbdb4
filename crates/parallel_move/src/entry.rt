//! The table of moves by which they are put in order.

ghost use Rattle.std.specs.Prelude.{◌≡◌, ◌<◌, ◌≤◌, ◌++◌, ◌∷◌, [], length, None, IfSome, OnOk, Option};
ghost use Rattle.parallel_move.specs.Order.{step_of};
ghost use Rattle.parallel_move.specs.Entries.{entry_at, is_saved, pending_in, is_free, released, made_at, saved_at, free_before};

use crate::step::Step;
use lir_core::Place;
use std::alloc::AllocError;

/// A move, and how it stands to the others.
#[derive(Clone, Copy)]
pub(crate) struct Entry {
    pub(crate) to: Place,
    pub(crate) from: Place,
    /// The move that writes this one's source.
    pub(crate) writer: Option<usize>,
    /// How many of the moves that are left read this one's destination.
    pub(crate) readers: usize,
    /// X16 has what the destination had.
    pub(crate) saved: bool,
    pub(crate) made: bool,
}

/// The move, if it stands before a bound and is free: left, and its destination read by no other.
pub(crate) fn free_before(entries: &[Entry], next: Option<usize>, bound: usize) -> Option<usize>
    requires { bound ≤ length entries.now }
    ensures { result ≡ free_before entries.now bound next }
{
    let i = next?;
    if i < bound && is_free(&entries[i]) {
        Some(i)
    } else {
        None
    }
}

fn is_free(entry: &Entry) -> bool
    ensures { result ≡ is_free entry.now }
{
    !entry.made && entry.readers == 0
}

/// Makes a move: its step comes next, and it reads its source no more.
pub(crate) fn make(entries: &mut [Entry], steps: &mut Vec<Step>, i: usize) -> Result<(), AllocError>
    requires { i < length entries.old }
    ensures entries { OnOk result (entries.new ≡ made_at entries.old i) }
    ensures steps { OnOk result (steps.new.items ≡ steps.old.items ++ step_of (pending_in entries.old (entry_at entries.old i)) ∷ []) }
{
    let entry = entries[i];
    steps.push(step_of(entries, &entry))?;
    release(entries, entry.writer);
    entries[i].made = true;
    Ok(())
}

// The step that makes a move: from X16 where that has what its source had.
fn step_of(entries: &[Entry], entry: &Entry) -> Step
    ensures { result ≡ step_of (pending_in entries.now entry.now) }
{
    if is_saved(entries, entry.writer) {
        Step::Restore(entry.to)
    } else {
        Step::Copy {
            to: entry.to,
            from: entry.from,
        }
    }
}

fn is_saved(entries: &[Entry], writer: Option<usize>) -> bool
    ensures { result ≡ is_saved entries.now writer }
{
    match writer {
        Some(j) if j < entries.len() => entries[j].saved,
        _ => false,
    }
}

// The writer of a source has a reader less.
fn release(entries: &mut [Entry], writer: Option<usize>)
    ensures { entries.new ≡ released entries.old writer }
{
    if let Some(j) = writer
        && j < entries.len()
        && !entries[j].saved
    {
        entries[j].readers = entries[j].readers.saturating_sub(1);
    }
}

/// Saves the destination of a move to X16, from which it is read then.
pub(crate) fn save(entries: &mut [Entry], steps: &mut Vec<Step>, i: usize) -> Result<(), AllocError>
    requires { i < length entries.old }
    ensures entries { OnOk result (entries.new ≡ saved_at entries.old i) }
    ensures steps { OnOk result (steps.new.items ≡ steps.old.items ++ Step.Save (entry_at entries.old i).to ∷ []) }
{
    let entry = entries[i];
    steps.push(Step::Save(entry.to))?;
    entries[i] = Entry {
        saved: true,
        readers: 0,
        ..entry
    };
    Ok(())
}
