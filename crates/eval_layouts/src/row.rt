//! Where variables that follow each other stand.

ghost use Rattle.std.specs.Prelude.{◌≡◌, IfSome, List, ℕ, [], ◌∷◌, ◌++◌, OnOk, IfOk};
ghost use Rattle.ob_types.specs.Table.{Table};
ghost use Rattle.ob_types.specs.Layout.{cells as cells_of};
ghost use Rattle.eval_layouts.specs.Tables.{TableOf, RowTo, values_among};

use items::Items;
use ob_types::{Formal, Mode};
use outside::Memory;
use std::alloc::Global;

/// Variables in a row: the place of each, and where they end.
#[derive(Drop)]
pub struct Row {
    pub places: Items<u64>,
    pub end: u64,
}

/// An item of a table, where it is there.
#[inline]
pub fn item(table: &[u64], k: u32) -> Option<u64>
    ensures { IfSome result (λ n. (f : ℕ → ℕ) → TableOf f table.now → n ≡ f k) }
{
    match table.get(k as usize) {
        Some(n) => Some(*n),
        None => None,
    }
}

impl Row {
    /// No variables, from a place on.
    pub fn new(alloc: Global, first: u64) -> Row
        ensures { (t : Table) → RowTo t first [] result.places result.end }
    {
        Row {
            places: Items::new(alloc),
            end: first,
        }
    }

    /// One more variable, of a type.
    pub fn add(&mut self, sizes: &[u64], kind: u32) -> Result<(), Memory>
        ensures { OnOk result ((t : Table) (first : ℕ) (types : List ℕ) → TableOf (cells_of t) sizes.now
            → RowTo t first types self.old.places self.old.end → RowTo t first (types ++ kind ∷ []) self.new.places self.new.end) }
    {
        match item(sizes, kind) {
            None => Err(Memory),
            Some(cells) => match self.end.checked_add(cells) {
                None => Err(Memory),
                Some(end) => {
                    self.places.push(self.end)?;
                    self.end = end;
                    Ok(())
                }
            },
        }
    }

    /// Variables of these types behind those that are there.
    pub fn add_all(&mut self, sizes: &[u64], kinds: &[u32]) -> Result<(), Memory>
        ensures { OnOk result ((t : Table) (first : ℕ) (types : List ℕ) → TableOf (cells_of t) sizes.now
            → RowTo t first types self.old.places self.old.end → RowTo t first (types ++ kinds.now) self.new.places self.new.end) }
    {
        for kind in kinds {
            self.add(sizes, *kind)?;
        }
        Ok(())
    }

    /// One more variable, where a parameter is a scalar value.
    pub fn add_value(&mut self, sizes: &[u64], formal: &Formal) -> Result<(), Memory>
        ensures { OnOk result ((t : Table) (first : ℕ) (types : List ℕ) → TableOf (cells_of t) sizes.now
            → RowTo t first types self.old.places self.old.end → RowTo t first (types ++ values_among (formal.now ∷ [])) self.new.places self.new.end) }
    {
        match formal.mode {
            Mode::Value => {
                self.add(sizes, formal.type_number)?;
                Ok(())
            }
            _ => Ok(()),
        }
    }
}
