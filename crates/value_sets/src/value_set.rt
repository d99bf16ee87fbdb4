//! The set.

ghost use Rattle.std.specs.Prelude.{◌≡◌, [], nat_lt, filter, IfOk, OnOk};
ghost use Rattle.block_runs.specs.Live.{has};
ghost use Rattle.lir_core.specs.Rows.{live_into};
ghost use Rattle.lir_core.specs.Spots.{IsRising};
ghost use Rattle.loc_state.specs.Homed.{inserted, all_inserted};

use crate::words::{bit, count, cut, grow, join, join_below, keep, push_all};
use lir_core::{Items, LiveSets};
use std::alloc::{AllocError, Global};
use std::marker::Model;

/// A set of values, which contracts see as the list of its values, rising. It is kept as a row of bits: value v is bit
/// v % 64 of word v / 64, and there are words up to the highest value that was inserted since the set was emptied.
#[derive(Drop)]
pub struct ValueSet {
    words: Vec<u64>,
}

impl Model for ValueSet {
    ghost use Rattle.std.specs.Prelude.{ℕ, ◌≤◌, ◌^◌, List, length};
    ghost use Rattle.value_sets.specs.Words.{values_of};

    ghost Value = { List ℕ };

    ghost view = { λ s. values_of s.words.items };

    ghost invariant = { λ s. length s.words.items ≤ 2 ^ 26 };
}

impl ValueSet {
    /// No values; takes no memory.
    pub fn new(alloc: Global) -> ValueSet
        ensures { result ≡ [] }
    {
        ValueSet {
            words: Vec::new(alloc),
        }
    }

    /// Takes all values out, and keeps the memory. Takes constant time.
    pub fn clear(&mut self)
        ensures { self.new ≡ [] }
    {
        self.words.clear();
    }

    /// Whether a value is in the set. Takes constant time and no memory.
    pub fn has(&self, value: u32) -> bool
        ensures { result ≡ has self.now value }
    {
        bit(self.words.as_slice(), value)
    }

    /// A value joins. Takes constant time, and memory where no value as high was inserted before.
    pub fn insert(&mut self, value: u32) -> Result<(), AllocError>
        ensures { OnOk result (self.new ≡ inserted value self.old) }
    {
        join(&mut self.words, value / 64, 1 << (value % 64))
    }

    /// The values of a list join.
    pub fn insert_all(&mut self, values: &[u32]) -> Result<(), AllocError>
        ensures { OnOk result (self.new ≡ all_inserted values.now self.old) }
    {
        for value in values {
            self.insert(*value)?;
        }
        Ok(())
    }

    /// Of so many values those join that are live into a node. Takes time in proportion to the words of the node's row.
    pub fn insert_live(&mut self, live: &LiveSets, node: u32, values: u32) -> Result<(), AllocError>
        ensures { OnOk result (self.new ≡ all_inserted (live_into values live.now node) self.old) }
    {
        join_below(&mut self.words, live.row(node), values)
    }

    /// Keeps what is in another set too. Takes time in proportion to the words, and no memory.
    pub fn keep(&mut self, others: &ValueSet)
        ensures { self.new ≡ filter (has others.now) self.old }
    {
        keep(&mut self.words, others.words.as_slice());
    }

    /// Keeps the values below a limit. Takes constant time and no memory.
    pub fn keep_below(&mut self, limit: u32)
        ensures { self.new ≡ filter (λ v. nat_lt v limit) self.old }
    {
        cut(&mut self.words, limit);
    }

    /// The values, in order, in a list of just their size; of none it takes no memory. Takes time in proportion to the
    /// words and the values.
    pub fn list(&self, alloc: Global) -> Result<Items<u32>, AllocError>
        ensures values { IfOk result (λ list. list ≡ self.now) }
        ensures rises { IfOk result IsRising }
    {
        let words = self.words.as_slice();
        let mut values = Vec::with_capacity(alloc, count(words))?;
        push_all(&mut values, words)?;
        Ok(Items::from_vec(values))
    }
}
