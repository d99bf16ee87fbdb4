//! For each value the positions at which something is said of it.

ghost use Rattle.std.specs.Prelude.{◌≡◌, ℕ, ◌<◌, ◌≤◌, length, IfOk, true, false, None};
ghost use Rattle.std.specs.List.{AllWithin};
ghost use Rattle.std.specs.List.Sorted.{IsPartitionPoint, IsNonDecreasingBy};
ghost use Rattle.trace_needs.specs.Asked.{IsRising, first_from, last_below};
ghost use Rattle.trace_needs.specs.Tables.{row_in, is_before};

use crate::notes::{Note, Notes};
use std::alloc::{AllocError, Global};

/// How many notes of a row are passed one by one before the rest is halved: most rows have no more.
const NEAR: usize = 4;

/// Notes in order of values, and those of a value in order of positions: a value's row stands in one piece. Of the values
/// with the same low bits, one has the place where its row begins in `firsts`: values of a trace mostly lie close together,
/// so that most rows are found at once.
#[derive(Drop)]
pub(crate) struct Rows {
    notes: Vec<Note>,
    firsts: Vec<u32>,
    ghost values_rise: { IsNonDecreasingBy (λ n. n.value) notes.items },
    ghost rows_rise: { (v : ℕ) → IsRising (row_in notes.items v) },
}

impl Rows {
    /// The rows of notes, where a value's notes are in order of positions. Takes time in proportion to the notes times a
    /// logarithm.
    pub(crate) fn of(alloc: Global, notes: Notes) -> Result<Rows, AllocError>
        requires rise { (v : ℕ) → IsRising (row_in notes v) }
        ensures { IfOk result (λ rows. (v : ℕ) → row_in rows.notes.items v ≡ row_in notes v) }
    {
        let notes = notes.by_value()?;
        let firsts = firsts_of(alloc, notes.as_slice())?;
        Ok(Rows { notes, firsts })
    }

    /// The first position of a value's row from a limit on.
    pub(crate) fn first_from(&self, value: u32, limit: u32) -> Option<u32>
        ensures { result ≡ first_from limit (row_in self.now.notes.items value) }
    {
        let count = self.count_before(value, limit);
        let note = self.notes.get(count)?;
        note.position_of(value)
    }

    /// The last position of a value's row below a limit.
    pub(crate) fn last_below(&self, value: u32, limit: u32) -> Option<u32>
        ensures { result ≡ last_below limit None (row_in self.now.notes.items value) }
    {
        match self.count_before(value, limit) {
            0 => None,
            n => self.notes[n - 1].position_of(value),
        }
    }

    // How many notes stand before the place of a value's note at a position.
    fn count_before(&self, value: u32, position: u32) -> usize
        ensures within { result ≤ length self.now.notes.items }
        ensures point { IsPartitionPoint (λ n. is_before value position n ≡ true) (λ n. is_before value position n ≡ false) self.now.notes.items result }
    {
        let first = self.first_of(value);
        let near = first.saturating_add(NEAR).min(self.notes.len());
        for at in first..near {
            if !self.notes[at].is_before(value, position) {
                return at;
            }
        }
        near + self.notes[near..].partition_point(|note| note.is_before(value, position))
    }

    // A place before which all notes are of lower values: where the value's row begins, if `firsts` has that, else 0.
    fn first_of(&self, value: u32) -> usize
        ensures { AllWithin (λ n. n.value < value) self.now.notes.items 0 result }
    {
        match self.firsts.get(slot_of(value, self.firsts.len())) {
            Some(first) if self.is_first(*first as usize, value) => *first as usize,
            _ => 0,
        }
    }

    // Whether a value's row begins at a place.
    fn is_first(&self, at: usize, value: u32) -> bool
        ensures { result ≡ true → AllWithin (λ n. n.value < value) self.now.notes.items 0 at }
    {
        match self.notes.get(at) {
            Some(note) if note.value == value => at == 0 || self.notes[at - 1].value < value,
            _ => false,
        }
    }
}

// Where rows begin, by the low bits of their values.
fn firsts_of(alloc: Global, notes: &[Note]) -> Result<Vec<u32>, AllocError> {
    let count = notes.len().min(u32::MAX as usize);
    let mut firsts = vec![in alloc; 0u32; count.next_power_of_two()]?;
    for at in (0..count).rev() {
        let slot = slot_of(notes[at].value, firsts.len());
        if let Some(first) = firsts.get_mut(slot) {
            *first = at as u32;
        }
    }
    Ok(firsts)
}

// The low bits of a value, as one of so many slots, which are a power of two.
fn slot_of(value: u32, slots: usize) -> usize {
    value as usize & slots.saturating_sub(1)
}
