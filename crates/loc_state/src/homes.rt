//! The homed values.

ghost use Rattle.std.specs.Prelude.{◌≡◌, [], IfOk, OnOk};
ghost use Rattle.block_runs.specs.Live.{has};
ghost use Rattle.lir_core.specs.Spots.{IsRising};
ghost use Rattle.loc_state.specs.Homed.{inserted, all_inserted, others};

use lir_core::Items;
use rising_lists::{is_at, is_rising, rank, rank_near};
use std::alloc::{AllocError, Global};
use std::marker::Model;

/// A set of values, which contracts see as the list of its values, rising. It is kept as that list: one that rises is taken
/// over and given out at once, and values that rise are inserted without a search. One that is inserted before others moves
/// these.
#[derive(Drop)]
pub struct Homes {
    values: Vec<u32>,
    /// The index behind the last value that was inserted.
    behind: usize,
}

impl Model for Homes {
    ghost use Rattle.std.specs.Prelude.{ℕ, List};
    ghost use Rattle.lir_core.specs.Spots.{IsRising};

    ghost Value = { List ℕ };

    ghost view = { λ s. s.values.items };

    ghost invariant = { λ s. IsRising s.values.items };
}

impl Homes {
    /// No values.
    pub fn new(alloc: Global) -> Homes
        ensures { result ≡ [] }
    {
        Homes {
            values: Vec::new(alloc),
            behind: 0,
        }
    }

    /// The values of a list.
    pub fn from_slice(alloc: Global, values: &[u32]) -> Result<Homes, AllocError>
        ensures { IfOk result (λ homes. homes ≡ all_inserted values.now []) }
    {
        if is_rising(values) {
            return Ok(Homes {
                values: Vec::from_slice(alloc, values)?,
                behind: 0,
            });
        }
        Homes::of_any(alloc, values)
    }

    // The values of a list that needn't rise.
    fn of_any(alloc: Global, values: &[u32]) -> Result<Homes, AllocError>
        ensures { IfOk result (λ homes. homes ≡ all_inserted values.now []) }
    {
        let mut homes = Homes::new(alloc);
        for value in values {
            homes.insert(*value)?;
        }
        Ok(homes)
    }

    /// Whether a value is homed.
    pub fn has(&self, value: u32) -> bool
        ensures { result ≡ has self.now value }
    {
        let values = self.values.as_slice();
        is_at(values, rank(values, value), value)
    }

    /// A value is homed.
    pub fn insert(&mut self, value: u32) -> Result<(), AllocError>
        ensures { OnOk result (self.new ≡ inserted value self.old) }
    {
        let at = rank_near(self.values.as_slice(), self.behind, value);
        self.behind = at.saturating_add(1);
        if !is_at(self.values.as_slice(), at, value) {
            self.values.insert(at, value)?;
        }
        Ok(())
    }

    /// A value is homed no more.
    pub fn remove(&mut self, value: u32)
        ensures { self.new ≡ others value self.old }
    {
        let at = rank(self.values.as_slice(), value);
        if is_at(self.values.as_slice(), at, value) {
            let _was_homed = self.values.remove(at);
        }
    }

    /// The values, in order.
    pub fn list(&self, alloc: Global) -> Result<Items<u32>, AllocError>
        ensures { IfOk result (λ list. list ≡ self.now) }
    {
        Items::from_slice(alloc, self.values.as_slice())
    }

    /// The values, in order, lent.
    pub fn as_slice(&self) -> &[u32]
        ensures values { result.now ≡ self.now }
        ensures rises { IsRising result.now }
    {
        self.values.as_slice()
    }
}
