//! A table that is filled position by position.

ghost use Rattle.std.specs.Prelude.{◌≡◌, ◌+◌, OnOk, IfOk};
ghost use Rattle.block_runs.specs.Blocks.{end_uses};
ghost use Rattle.trace_needs.specs.Tables.{no_notes, with_notes};

use crate::notes::Notes;
use lir_core::Leave;
use outside::Memory;
use std::alloc::{AllocError, Global};

/// The number of the position that comes next, and what is noted of the positions before it.
#[derive(Drop)]
pub(crate) struct Table {
    pub(crate) at: u32,
    pub(crate) notes: Notes,
}

impl Table {
    /// No position is passed; there is room for so many notes.
    pub(crate) fn new(alloc: Global, room: usize) -> Result<Table, AllocError>
        ensures { IfOk result (λ table. table ≡ no_notes) }
    {
        let notes = Notes::with_room(alloc, room)?;
        Ok(Table { at: 0, notes })
    }

    /// Notes values at the position that is being passed.
    pub(crate) fn note(&mut self, values: &[u32]) -> Result<(), Memory>
        ensures { OnOk result (self.new ≡ with_notes values.now self.old) }
    {
        self.notes.note_all(values, self.at)?;
        Ok(())
    }

    /// Notes what an end uses.
    pub(crate) fn note_end(&mut self, end: &Leave) -> Result<(), Memory>
        ensures { OnOk result (self.new ≡ with_notes (end_uses end.now) self.old) }
    {
        match end {
            Leave::Jump { args, .. } => self.note(args.as_slice()),
            Leave::Branch { a, b, .. } => self.note(&[*a, *b]),
            Leave::Nonzero { a, .. } => self.note(&[*a]),
            Leave::Return(Some(value)) => self.note(&[*value]),
            Leave::Return(None) | Leave::Trap(_) => Ok(()),
        }
    }

    /// The next position; there are fewer than 2^32 of them in a valid flow.
    pub(crate) fn step(&mut self) -> Result<(), Memory>
        ensures { OnOk result (self.new ≡ record self.old { at = self.old.at + 1 }) }
    {
        self.at = self.at.checked_add(1).ok_or(Memory)?;
        Ok(())
    }
}
