//! Rows of bits that are being filled.

ghost use Rattle.std.specs.Prelude.{◌≡◌, ◌/◌, ◌<◌, IfOk, length, replicate};
ghost use Rattle.smallvec.specs.SmallVec.{small_vec_len};
ghost use Rattle.lir_core.specs.Rows.{has_bit, is_in};
ghost use Rattle.global_live.specs.Rows.{is_new, inserted, with_value};

use lir_core::LiveSets;
use smallvec::SmallVec;
use std::alloc::{AllocError, Global};
use std::marker::Model;

/// For each node a row of words, in which each value has a bit: value v bit v % 64 of word v / 64.
#[derive(Drop)]
pub(crate) struct Rows {
    rows: Vec<SmallVec<u64, 2>>,
}

impl Model for Rows {
    ghost use Rattle.std.specs.Prelude.{ℕ, List, map};

    ghost Value = { List (List ℕ) };

    ghost view = { λ s. map (λ row. row.items) s.rows.items };
}

impl Rows {
    /// So many rows of so many words, without any value.
    pub(crate) fn new(alloc: Global, nodes: usize, words: usize) -> Result<Rows, AllocError>
        ensures { IfOk result (λ rows. rows ≡ replicate nodes (replicate words 0)) }
    {
        let mut rows = Vec::with_capacity(alloc, nodes)?;
        for _ in 0..nodes {
            rows.push(SmallVec::from_elem(alloc, 0u64, words)?)?;
        }
        Ok(Rows { rows })
    }

    /// Whether a value is in a node's row.
    pub(crate) fn has(&self, node: u32, value: u32) -> bool
        ensures { result ≡ has_bit self.now node value }
    {
        match self.rows.get(node as usize) {
            Some(row) => is_set(row.as_slice(), value),
            None => false,
        }
    }

    /// Puts a value in a node's row; says whether it joined there.
    pub(crate) fn insert(&mut self, node: u32, value: u32) -> bool
        ensures joins { result ≡ is_new self.old node value }
        ensures rows { self.new ≡ inserted self.old node value }
    {
        if node as usize >= self.rows.len() || self.has(node, value) {
            return false;
        }
        let row = &mut self.rows[node as usize];
        if value as usize / 64 >= row.len() {
            return false;
        }
        set(row, value);
        true
    }

    /// The sets that the rows are.
    pub(crate) fn into_live_sets(self) -> LiveSets
        ensures { result ≡ self }
    {
        let Rows { rows } = self;
        LiveSets::from_rows(rows)
    }
}

// A value's bit of a row.
fn is_set(row: &[u64], value: u32) -> bool
    ensures { result ≡ is_in row.now value }
{
    match row.get(value as usize / 64) {
        Some(word) => *word >> (value % 64) & 1 == 1,
        None => false,
    }
}

// Sets a value's bit of a row.
fn set(row: &mut SmallVec<u64, 2>, value: u32)
    requires { value / 64 < small_vec_len row.old }
    ensures { row.new.items ≡ with_value row.old.items value }
{
    write(row.as_mut_slice(), value);
}

// The same, where the row stands.
fn write(row: &mut [u64], value: u32)
    requires { value / 64 < length row.old }
    ensures { row.new ≡ with_value row.old value }
{
    row[value as usize / 64] |= 1 << (value % 64);
}
