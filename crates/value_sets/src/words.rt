//! The words of a set.

ghost use Rattle.std.specs.Prelude.{◌≡◌, ℕ, ◌+◌, ◌/◌, ◌%◌, ◌^◌, ◌≤◌, ◌<◌, ◌||◌, ◌&&◌, nat_lt, ◌++◌, length, max, slice_index, OnOk};
ghost use Rattle.lir_core.specs.Rows.{is_in};
ghost use Rattle.value_sets.specs.Words.{values_of, word_values, AreSame, AreJoined, AreAllJoined, AreKept};

use std::alloc::AllocError;

/// A value's bit.
pub(crate) fn bit(words: &[u64], value: u32) -> bool
    ensures { result ≡ is_in words.now value }
{
    match words.get(value as usize / 64) {
        Some(word) => *word >> (value % 64) & 1 == 1,
        None => false,
    }
}

/// Words of zeros come behind, up to so many.
pub(crate) fn grow(words: &mut Vec<u64>, count: usize) -> Result<(), AllocError>
    ensures same { AreSame words.old.items words.new.items }
    ensures room { OnOk result (count ≤ length words.new.items) }
    ensures long { length words.new.items ≤ max (length words.old.items) count }
{
    if count > words.len() {
        return lengthen(words, count);
    }
    Ok(())
}

// The same, apart, since it is seldom needed.
fn lengthen(words: &mut Vec<u64>, count: usize) -> Result<(), AllocError>
    ensures same { AreSame words.old.items words.new.items }
    ensures room { OnOk result (count ≤ length words.new.items) }
    ensures long { length words.new.items ≤ max (length words.old.items) count }
{
    if count > words.len() {
        words.resize(count, 0)?;
    }
    Ok(())
}

/// A word's bits join at an index.
pub(crate) fn join(words: &mut Vec<u64>, at: u32, word: u64) -> Result<(), AllocError>
    ensures joined { OnOk result (AreJoined at word words.old.items words.new.items) }
    ensures long { length words.new.items ≤ max (length words.old.items) (at + 1) }
{
    if word == 0 {
        return Ok(());
    }
    grow(words, at as usize + 1)?;
    words[at as usize] |= word;
    Ok(())
}

/// Of the values below a limit those of a row join.
pub(crate) fn join_below(words: &mut Vec<u64>, row: &[u64], limit: u32) -> Result<(), AllocError>
    ensures joined { OnOk result ((v : ℕ) → is_in words.new.items v ≡ (is_in words.old.items v || (nat_lt v limit && is_in row.now v))) }
    ensures long { length words.new.items ≤ max (length words.old.items) (limit / 64 + 1) }
{
    let whole = limit / 64;
    join_first(words, row, whole)?;
    join(
        words,
        whole,
        low_bits(word_at(row, whole as usize), limit % 64),
    )
}

// The first words of a row join.
fn join_first(words: &mut Vec<u64>, row: &[u64], count: u32) -> Result<(), AllocError>
    ensures joined { OnOk result (AreAllJoined row.now count words.old.items words.new.items) }
    ensures long { length words.new.items ≤ max (length words.old.items) count }
{
    grow(words, row.len().min(count as usize))?;
    for at in 0..count {
        if at as usize >= row.len() {
            return Ok(());
        }
        join(words, at, row[at as usize])?;
    }
    Ok(())
}

// A word of a row, or none of its bits where the row has no such word.
fn word_at(row: &[u64], at: usize) -> u64
    ensures { result ≡ slice_index row.now at }
{
    match row.get(at) {
        Some(word) => *word,
        None => 0,
    }
}

// The lowest bits of a word, fewer than 64.
fn low_bits(word: u64, bits: u32) -> u64
    requires { bits < 64 }
    ensures { result ≡ word % 2 ^ bits }
{
    word & ((1 << bits) - 1)
}

/// Keeps the bits that another row has too.
pub(crate) fn keep(words: &mut Vec<u64>, others: &[u64])
    ensures kept { (v : ℕ) → is_in words.new.items v ≡ (is_in words.old.items v && is_in others.now v) }
    ensures long { length words.new.items ≡ length words.old.items }
{
    for at in 0..words.len() {
        words[at] &= word_at(others, at);
    }
}

/// Keeps the values below a limit.
pub(crate) fn cut(words: &mut Vec<u64>, limit: u32)
    ensures kept { (v : ℕ) → is_in words.new.items v ≡ (is_in words.old.items v && nat_lt v limit) }
    ensures long { length words.new.items ≤ length words.old.items }
{
    let whole = limit as usize / 64;
    if whole < words.len() {
        words.truncate(whole + 1);
        words[whole] = low_bits(words[whole], limit % 64);
    }
}

/// How many bits are set. Takes time in proportion to the words and to these bits.
pub(crate) fn count(words: &[u64]) -> usize {
    let mut count = 0usize;
    for at in 0..words.len() {
        count = count.wrapping_add(ones(words[at]));
    }
    count
}

// The same of a word, whose lowest bit is taken out again and again: few are set in most words.
fn ones(word: u64) -> usize {
    let mut rest = word;
    let mut count = 0usize;
    while rest != 0 {
        rest &= rest - 1;
        count = count.wrapping_add(1);
    }
    count
}

/// Adds the values of a row to a list, in order.
pub(crate) fn push_all(list: &mut Vec<u32>, words: &[u64]) -> Result<(), AllocError>
    requires { length words.now ≤ 2 ^ 26 }
    ensures { OnOk result (list.new.items ≡ list.old.items ++ values_of words.now) }
{
    for at in 0..words.len() {
        push_word(list, words, at)?;
    }
    Ok(())
}

// Adds the values of a word.
fn push_word(list: &mut Vec<u32>, words: &[u64], at: usize) -> Result<(), AllocError>
    requires bounded { length words.now ≤ 2 ^ 26 }
    requires within { at < length words.now }
    ensures { OnOk result (list.new.items ≡ list.old.items ++ word_values words.now at) }
{
    let first = at as u32 * 64;
    let mut from = 0;
    while from < 64 && words[at] >> from != 0 {
        let bit = from + (words[at] >> from).trailing_zeros();
        list.push(first + bit)?;
        from = bit + 1;
    }
    Ok(())
}
