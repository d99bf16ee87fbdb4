//! The cells of a row.

ghost use Rattle.std.specs.Prelude.{◌≡◌, ◌==◌, ◌++◌, OnOk, None, Some, take};
ghost use Rattle.std.specs.List.{list_any};
ghost use Rattle.trace_rows.specs.Cells.{hit_text, held_text, cell_text, cells_text, left_out, homes_text, word_line, word_lines, words_text};

use crate::marks::{put_held_begin, put_hue_begin, put_number_begin, put_off_begin, put_on_begin};
use crate::operations::put_values;
use a64_text::put_word_at;
use html_text::{put_number, put_text};
use outside::Memory;
use std::alloc::{AllocError, Global};

/// The most homes that a block's first row lists.
const MOST_HOMES: usize = 24;

// Whether a register is among those that are hit.
fn is_hit(hits: &[u8], reg: usize) -> bool
    ensures { result ≡ list_any (λ h. h == reg) hits.now }
{
    hits.iter().any(|hit| *hit as usize == reg)
}

fn put_hit(text: &mut Vec<u8>, hit: bool) -> Result<(), AllocError>
    ensures { OnOk result (text.new.items ≡ text.old.items ++ hit_text hit) }
{
    if hit { put_text(text, b" hit") } else { Ok(()) }
}

// A value in its colour.
#[tactic(auto, unfolding(crate::specs::Cells::held_text))]
fn put_held(alloc: Global, text: &mut Vec<u8>, value: u32) -> Result<(), AllocError>
    ensures { OnOk result (text.new.items ≡ text.old.items ++ held_text value) }
{
    put_number_begin(text)?;
    put_number(alloc, text, u64::from(value))?;
    put_hue_begin(text)?;
    put_number(alloc, text, u64::from(value) * 47 % 360)?;
    put_held_begin(text)?;
    put_number(alloc, text, u64::from(value))
}

#[tactic(auto, unfolding(crate::specs::Cells::cell_text))]
fn put_empty_cell(text: &mut Vec<u8>, hit: bool) -> Result<(), AllocError>
    ensures { OnOk result (text.new.items ≡ text.old.items ++ cell_text hit None) }
{
    put_off_begin(text)?;
    put_hit(text, hit)?;
    put_text(text, b"\"></td>")
}

#[tactic(auto, unfolding(crate::specs::Cells::cell_text))]
fn put_full_cell(alloc: Global, text: &mut Vec<u8>, hit: bool, value: u32) -> Result<(), AllocError>
    ensures { OnOk result (text.new.items ≡ text.old.items ++ cell_text hit (Some value)) }
{
    put_on_begin(text)?;
    put_hit(text, hit)?;
    put_held(alloc, text, value)?;
    put_text(text, b"</td>")
}

fn put_cell(
    alloc: Global,
    text: &mut Vec<u8>,
    hit: bool,
    held: Option<u32>,
) -> Result<(), AllocError>
    ensures { OnOk result (text.new.items ≡ text.old.items ++ cell_text hit held) }
{
    match held {
        None => put_empty_cell(text, hit),
        Some(value) => put_full_cell(alloc, text, hit, value),
    }
}

/// Appends the cells of registers.
pub(crate) fn put_cells(
    alloc: Global,
    text: &mut Vec<u8>,
    hits: &[u8],
    regs: &[Option<u32>],
) -> Result<(), AllocError>
    ensures { OnOk result (text.new.items ≡ text.old.items ++ cells_text hits.now 0 regs.now) }
{
    for reg in 0..regs.len() {
        put_cell(alloc, text, is_hit(hits, reg), regs[reg])?;
    }
    Ok(())
}

fn put_left_out(alloc: Global, text: &mut Vec<u8>, count: usize) -> Result<(), AllocError>
    ensures { OnOk result (text.new.items ≡ text.old.items ++ left_out count) }
{
    put_text(text, b" and ")?;
    put_number(alloc, text, count as u64)?;
    put_text(text, b" more")
}

/// Appends homes, up to a number of them, and how many more there are.
#[tactic(auto, unfolding(crate::specs::Cells::homes_text))]
pub(crate) fn put_homes(alloc: Global, text: &mut Vec<u8>, values: &[u32]) -> Result<(), AllocError>
    ensures { OnOk result (text.new.items ≡ text.old.items ++ homes_text values.now) }
{
    if values.len() <= MOST_HOMES {
        return put_values(alloc, text, values);
    }
    put_values(alloc, text, &values[..MOST_HOMES])?;
    put_left_out(alloc, text, values.len() - MOST_HOMES)
}

// A word with its number in the code.
#[tactic(auto, unfolding(crate::specs::Cells::word_line))]
fn put_word_line(alloc: Global, text: &mut Vec<u8>, at: u32, word: u32) -> Result<(), AllocError>
    ensures { OnOk result (text.new.items ≡ text.old.items ++ word_line at word) }
{
    put_text(text, b"<b>")?;
    put_number(alloc, text, u64::from(at))?;
    put_text(text, b"</b> ")?;
    put_word_at(alloc, text, word, at)?;
    put_text(text, b"<br/>")
}

// Words, the first of which has a number.
#[tactic(auto, using(crate::proofs::Lines::word_more))]
fn put_word_lines(
    alloc: Global,
    text: &mut Vec<u8>,
    first: usize,
    words: &[u32],
) -> Result<(), Memory>
    ensures { OnOk result (text.new.items ≡ text.old.items ++ word_lines first words.now) }
{
    for index in 0..words.len() {
        let at = u32::try_from(first.saturating_add(index)).map_err(|_| Memory)?;
        put_word_line(alloc, text, at, words[index])?;
    }
    Ok(())
}

// The first so many, or all.
fn front(words: &[u32], count: usize) -> &[u32]
    ensures { result.now ≡ take count words.now }
{
    &words[..count.min(words.len())]
}

/// Appends so many words of code, from a place on, as far as there are any.
#[tactic(auto, unfolding(crate::specs::Cells::words_text))]
pub(crate) fn put_words(
    alloc: Global,
    text: &mut Vec<u8>,
    code: &[u32],
    at: usize,
    width: u32,
) -> Result<(), Memory>
    ensures { OnOk result (text.new.items ≡ text.old.items ++ words_text code.now at width) }
{
    let behind = &code[at.min(code.len())..];
    put_word_lines(alloc, text, at, front(behind, width as usize))
}
