//! Which values are live into each node, as rows of bits.

ghost use Rattle.std.specs.Prelude.{◌≡◌, ◌*◌, [], map, slice_index_or};
ghost use Rattle.lir_core.specs.Rows.{has_bit, is_in, IsNext};

use smallvec::SmallVec;
use std::marker::Model;

/// For each node a row of words, in which each value has a bit: value v bit v % 64 of word v / 64, from the lowest on. The
/// first two words of a row take no memory of their own.
#[derive(Drop)]
pub struct LiveSets {
    rows: Vec<SmallVec<u64, 2>>,
}

impl Model for LiveSets {
    ghost use Rattle.std.specs.Prelude.{ℕ, List, map};

    ghost Value = { List (List ℕ) };

    ghost view = { λ s. map (λ row. row.items) s.rows.items };
}

impl LiveSets {
    /// The sets with these rows, one for each node.
    pub fn from_rows(rows: Vec<SmallVec<u64, 2>>) -> LiveSets
        ensures { result ≡ map (λ row. row.items) rows.items }
    {
        LiveSets { rows }
    }

    /// The words of a node's row; none where there is no such node. Takes no memory.
    pub fn row(&self, node: u32) -> &[u64]
        ensures { result.now ≡ slice_index_or self.now node [] }
    {
        match self.rows.get(node as usize) {
            Some(row) => row.as_slice(),
            None => &[],
        }
    }

    /// Whether a value is live into a node; false where there is no such node or value. Takes no memory.
    pub fn has(&self, node: u32, value: u32) -> bool
        ensures { result ≡ has_bit self.now node value }
    {
        match self.rows.get(node as usize) {
            Some(row) => bit(row.as_slice(), value),
            None => false,
        }
    }

    /// The lowest value from `from` on that is live into a node; none where there is no such node or value. Takes no
    /// memory, and time in proportion to the words that are passed: to go through a row takes its words and its values.
    pub fn next_live(&self, node: u32, from: u32) -> Option<u32>
        ensures { IsNext (has_bit self.now node) from result }
    {
        match self.rows.get(node as usize) {
            Some(row) => next_bit(row.as_slice(), from),
            None => None,
        }
    }
}

// A value's bit of a row.
fn bit(row: &[u64], value: u32) -> bool
    ensures { result ≡ is_in row.now value }
{
    match row.get(value as usize / 64) {
        Some(word) => *word >> (value % 64) & 1 == 1,
        None => false,
    }
}

// The lowest value of a row from `from` on: the word of `from` from that bit on, and then the words behind.
fn next_bit(row: &[u64], from: u32) -> Option<u32>
    ensures { IsNext (is_in row.now) from result }
{
    let word = from as usize / 64;
    if word >= row.len() {
        return None;
    }
    let rest = row[word] >> (from % 64);
    if rest != 0 {
        return Some(from + rest.trailing_zeros());
    }
    first_bit(row, word + 1)
}

// The lowest value of a row from a word on; a value's number is below 2^32.
fn first_bit(row: &[u64], word: usize) -> Option<u32>
    ensures { IsNext (is_in row.now) (word * 64) result }
{
    for at in word..row.len().min(1 << 26) {
        if row[at] != 0 {
            return Some(at as u32 * 64 + row[at].trailing_zeros());
        }
    }
    None
}
