//! What positions say of values, in the order of positions.

ghost use Rattle.std.specs.Prelude.{◌≡◌, ℕ, [], IfOk, OnOk};
ghost use Rattle.std.specs.List.Sorted.{IsNonDecreasingBy};
ghost use Rattle.lir_core.specs.Rows.{live_into};
ghost use Rattle.trace_needs.specs.Tables.{noted, noted_all, row_in, is_before, position_of};

use lir_core::{LiveSets, next_live};
use std::alloc::{AllocError, Global};
use std::marker::Model;

/// A value, and a position at which something is said of it.
#[derive(Clone, Copy)]
pub(crate) struct Note {
    pub(crate) value: u32,
    pub(crate) position: u32,
}

impl Note {
    /// Whether the note comes before a value's note at a position, in order of values and then of positions.
    pub(crate) fn is_before(&self, value: u32, position: u32) -> bool
        ensures { result ≡ is_before value position self.now }
    {
        self.value < value || self.value == value && self.position < position
    }

    /// The position, if something is said of that value.
    pub(crate) fn position_of(&self, value: u32) -> Option<u32>
        ensures { result ≡ position_of value self.now }
    {
        if self.value == value {
            Some(self.position)
        } else {
            None
        }
    }
}

/// Notes, in order.
#[derive(Drop)]
pub(crate) struct Notes {
    notes: Vec<Note>,
}

impl Model for Notes {
    ghost use Rattle.std.specs.Prelude.{List};
    ghost use Rattle.trace_needs.specs.declared.notes.Note.{Note};

    ghost Value = { List Note };

    ghost view = { λ s. s.notes.items };
}

impl Notes {
    /// None, with room for so many.
    pub(crate) fn with_room(alloc: Global, count: usize) -> Result<Notes, AllocError>
        ensures { IfOk result (λ notes. notes ≡ []) }
    {
        let notes = Vec::with_capacity(alloc, count)?;
        Ok(Notes { notes })
    }

    /// The notes in order of values, and those of a value as they were.
    pub(crate) fn by_value(self) -> Result<Vec<Note>, AllocError>
        ensures same_rows { IfOk result (λ notes. (v : ℕ) → row_in notes.items v ≡ row_in self v) }
        ensures values_rise { IfOk result (λ notes. IsNonDecreasingBy (λ n. n.value) notes.items) }
    {
        let Notes { mut notes } = self;
        notes.sort_by_key(|note| note.value)?;
        Ok(notes)
    }

    /// Notes a value at a position.
    pub(crate) fn note(&mut self, value: u32, position: u32) -> Result<(), AllocError>
        ensures { OnOk result (self.new ≡ noted value position self.old) }
    {
        self.notes.push(Note { value, position })?;
        Ok(())
    }

    /// Notes some values at a position.
    pub(crate) fn note_all(&mut self, values: &[u32], position: u32) -> Result<(), AllocError>
        ensures { OnOk result (self.new ≡ noted_all values.now position self.old) }
    {
        for value in values {
            self.note(*value, position)?;
        }
        Ok(())
    }

    /// Notes what is live into a node at a position.
    pub(crate) fn note_live(
        &mut self,
        live: &LiveSets,
        node: u32,
        values: u32,
        position: u32,
    ) -> Result<(), AllocError>
        ensures { OnOk result (self.new ≡ noted_all (live_into values live.now node) position self.old) }
    {
        let mut from = 0;
        while let Some(value) = next_live(live, node, from, values) {
            self.note(value, position)?;
            from = value + 1;
        }
        Ok(())
    }
}
