//! The words of an image, from pieces.

ghost use Rattle.std.specs.Prelude.{◌≡◌, ℕ, ◌+◌, ◌-◌, ◌<◌, ◌≤◌, ◌^◌, List, [], ◌∷◌, ◌++◌, map, drop, length, true, IfOk, IfErr, OnOk};
ghost use Rattle.run_laws.specs.Layers.{whole_width};
ghost use Rattle.a64_table.specs.Table.{word_of};
ghost use Rattle.a64_runtime.specs.Routines.{routines};
ghost use Rattle.placed_code.specs.Words.{op_words};
ghost use Rattle.placed_code.specs.Layout.{start_words};
ghost use Rattle.link_words.specs.Fields.{InReach, entry_in};
ghost use Rattle.link_layout.specs.declared.fault.LayoutFault.TheVariants.{Limit};
ghost use Rattle.link_blocks.specs.Fits.{number_fits};
ghost use Rattle.procedure_pieces.specs.Linked.{piece_width, bodies_in, begins, linked};
ghost use Rattle.procedure_code.specs.Parts.{entry_at};
ghost use Rattle.procedure_code.specs.Joined.{begin_from};
ghost use Rattle.procedure_code.specs.Views.{piece_in};

use crate::filling::Entries;
use crate::joining::{push_all, push_pieces};
use crate::measuring::add;
use crate::pieces::Piece;
use crate::putting::push_code;
use a64_instr::Bits;
use a64_runtime::{Routine, routine_words};
use link_blocks::Registers;
use link_layout::LayoutFault;
use lir_core::Template;
use outside::Memory;
use std::alloc::{AllocError, Global};

/// The most procedures of an image, each of which has a word.
const MOST: usize = 262_144;

/// How many words stand before the first procedure, besides a call of each body.
const BEFORE: u32 = 39;

/// The code words of an image of pieces; where each of these begins, by number, and behind them where the last one
/// ends.
#[derive(Drop)]
pub struct CodeWords {
    pub words: Vec<u32>,
    pub entries: Vec<u32>,
}

/// The code words of an image of pieces: a call of each body of a module and the end, the routines, and the pieces by
/// number with their holes filled. `Limit` comes exactly where they are over 262,144. Takes time in proportion to the
/// words.
pub fn code_of(alloc: Global, pieces: &[Piece]) -> Result<CodeWords, LayoutFault>
    ensures code { IfOk result (λ code. code.words.items ≡ linked (map piece_in pieces.now)) }
    ensures entries { IfOk result (λ code. (p : ℕ) → entry_at code.entries.items p ≡ begins (map piece_in pieces.now) p) }
    ensures fits { IfOk result (λ code. length (linked (map piece_in pieces.now)) ≤ 2 ^ 18) }
    ensures limit { IfErr result (λ fault. fault ≡ Limit → 2 ^ 18 < length (linked (map piece_in pieces.now))) }
{
    if pieces.len() > MOST {
        return Err(LayoutFault::Limit);
    }
    let bodies = count_bodies(pieces)?;
    let found = all_entries(alloc, bodies, pieces)?;
    let entries = Entries {
        procedures: found.as_slice(),
        routines: bodies + 1,
    };
    let mut words = room_for(alloc, found.as_slice())?;
    push_start(&mut words, entries, pieces)?;
    push_routines(&mut words)?;
    push_pieces(&mut words, entries, pieces)?;
    Ok(CodeWords {
        words,
        entries: found,
    })
}

/// How many of the pieces are bodies of modules.
fn count_bodies(pieces: &[Piece]) -> Result<u32, LayoutFault>
    ensures count { IfOk result (λ count. count ≡ length (bodies_in 0 (map piece_in pieces.now))) }
    ensures fits { IfOk result (λ count. count ≤ 2 ^ 18) }
    ensures limit { IfErr result (λ fault. 2 ^ 18 < length (bodies_in 0 (map piece_in pieces.now))) }
{
    let mut count = 0;
    for piece in pieces {
        if !piece.counted {
            count = add(count, 1)?;
        }
    }
    Ok(count)
}

/// Where the pieces begin, by number, and behind them where the last one ends.
fn all_entries(alloc: Global, bodies: u32, pieces: &[Piece]) -> Result<Vec<u32>, LayoutFault>
    ensures entries { IfOk result (λ found. found.items ≡ begin_from (bodies + 39) (map piece_in pieces.now)) }
    ensures fits { IfOk result (λ found. bodies + 39 + whole_width piece_width 0 (map piece_in pieces.now) ≤ 2 ^ 18) }
    ensures limit { IfErr result (λ fault. fault ≡ Limit → 2 ^ 18 < bodies + 39 + whole_width piece_width 0 (map piece_in pieces.now)) }
{
    let mut found = Vec::with_capacity(alloc, pieces.len())?;
    let mut at = add(bodies, BEFORE)?;
    for piece in pieces {
        found.push(at)?;
        at = add(at, piece.words.len() as u32)?;
    }
    found.push(at)?;
    Ok(found)
}

/// A list of no words yet, with room for all up to where the last procedure ends.
fn room_for(alloc: Global, entries: &[u32]) -> Result<Vec<u32>, AllocError>
    ensures { IfOk result (λ words. words.items ≡ []) }
{
    match entries.last() {
        Some(end) => Vec::with_capacity(alloc, *end as usize),
        None => Ok(Vec::new(alloc)),
    }
}

/// Appends a call of each body, and the end.
fn push_start(words: &mut Vec<u32>, entries: Entries, pieces: &[Piece]) -> Result<(), Memory>
    requires procedures { InReach entries.procedures.now }
    requires routines { entries.routines < 2 ^ 17 }
    requires few { length pieces.now ≤ 2 ^ 18 }
    requires near { length words.old.items + length (bodies_in 0 (map piece_in pieces.now)) < 2 ^ 18 }
    ensures { OnOk result (words.new.items ≡ words.old.items ++ map word_of
        (start_words (entry_at entries.entry.procedures.now) (length words.old.items) (bodies_in 0 (map piece_in pieces.now)))) }
{
    for (number, piece) in pieces.iter().enumerate() {
        if !piece.counted {
            push_bare(words, entries, Template::Call(number as u32))?;
        }
    }
    push_bare(words, entries, Template::Svc(0))
}

/// Appends an operation that names no register.
fn push_bare(words: &mut Vec<u32>, entries: Entries, code: Template) -> Result<(), Memory>
    requires procedures { InReach entries.procedures.now }
    requires routines { entries.routines < 2 ^ 17 }
    requires number { number_fits code ≡ true }
    requires near { length words.old.items < 2 ^ 18 }
    ensures { OnOk result (words.new.items ≡ words.old.items
        ++ map word_of (op_words (entry_at entries.entry.procedures.now) entries.entry.routines 0 (length words.old.items) code 0 0 0 0)) }
{
    let none = Bits::new(0);
    let registers = Registers {
        a: none,
        b: none,
        c: none,
        d: none,
    };
    push_code(words, entries, 0, code, registers)
}

fn push_routines(words: &mut Vec<u32>) -> Result<(), AllocError>
    ensures { OnOk result (words.new.items ≡ words.old.items ++ map word_of routines) }
{
    push_all(words, routine_words(Routine::Copy))?;
    push_all(words, routine_words(Routine::Zero))?;
    push_all(words, routine_words(Routine::Compare))
}
