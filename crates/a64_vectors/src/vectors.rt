//! Files of words, one word a line.

use a64_table::{decode, encode};
use a64_text::put_word;
use std::alloc::{AllocError, Global};
use std::io;

/// How many lines of a file agree with the table, and how many don't.
#[derive(Clone, Copy)]
pub struct Tally {
    pub agree: u64,
    pub differ: u64,
}

/// Which words a file has.
#[derive(Clone, Copy, PartialEq, Eq)]
pub enum Kind {
    /// Words of the table, each with its text.
    Encodings,
    /// Words that aren't in the table.
    Undefined,
}

/// Compares each line of the text with the table, and prints those that disagree.
pub fn compare(rt: &(impl Print + AllocGlobal), text: &str, kind: Kind) -> io::Result<Tally> {
    let mut tally = Tally {
        agree: 0,
        differ: 0,
    };
    for line in text.lines() {
        if line.starts_with('#') {
            continue;
        }
        if agrees(rt.alloc(), line, kind)? {
            tally.agree = tally.agree.saturating_add(1);
        } else {
            tally.differ = tally.differ.saturating_add(1);
            println!(rt; "{line}")?;
        }
    }
    Ok(tally)
}

/// Whether the line agrees with the table.
fn agrees(alloc: Global, line: &str, kind: Kind) -> Result<bool, AllocError> {
    let Some((digits, rest)) = line.split_once('\t') else {
        return Ok(false);
    };
    let Ok(word) = u32::from_str_radix(digits, 16) else {
        return Ok(false);
    };
    match kind {
        Kind::Encodings => is_encoding(alloc, word, first_column(rest)),
        Kind::Undefined => Ok(decode(word).is_none()),
    }
}

/// The text before the first tab.
fn first_column(rest: &str) -> &str {
    match rest.split_once('\t') {
        Some((first, _)) => first,
        None => rest,
    }
}

/// Whether the word is read as an instruction, is that instruction's word, and prints as the text.
fn is_encoding(alloc: Global, word: u32, text: &str) -> Result<bool, AllocError> {
    let Some(instr) = decode(word) else {
        return Ok(false);
    };
    let mut printed = Vec::new(alloc);
    put_word(alloc, &mut printed, word)?;
    Ok(encode(&instr) == word && printed.as_slice() == text.as_bytes())
}
