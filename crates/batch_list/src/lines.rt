//! The lines of a list.

ghost use Rattle.std.specs.Prelude.{◌≡◌, ◌≢◌, ◌+◌, ◌≤◌, ◌<◌, [], ◌∷◌, length, map, IfOk, MatchOption};
ghost use Rattle.batch_list.specs.Form.{ListLine, NoneIsEmpty, SomeIsEmpty, IsRowOf};
ghost use Rattle.batch_list.specs.Lists.{plain_line, IsReadAs, IsListOf};

use crate::line::JobLine;
use crate::parts::{rows, words};
use std::alloc::{AllocError, Global};
use thiserror::Error;

/// Why a list isn't read.
#[derive(Clone, Copy, Debug, PartialEq, Eq, Error)]
pub enum ListFault {
    /// The line with this number, counted from 1, is the first that isn't of the form.
    #[error("bad line {line}")]
    BadLine { line: u32 },
    /// Memory ran out.
    #[error("out of memory")]
    Memory,
}

// The submitter that a word names.
fn submitter(word: &[u8]) -> Option<u8>
    ensures { MatchOption result (word.now ≢ 48 ∷ [] × word.now ≢ 49 ∷ []) (λ sender. (sender < 2) × (word.now ≡ (48 + sender) ∷ [])) }
{
    if word.len() != 1 {
        return None;
    }
    match word[0] {
        b'0' => Some(0),
        b'1' => Some(1),
        _ => None,
    }
}

fn copy_of(alloc: Global, word: &[u8]) -> Result<Vec<u8>, AllocError>
    ensures { IfOk result (λ copy. copy.items ≡ word.now) }
{
    word.to_vec(alloc)
}

// The words as names, unless one is empty.
fn read_names(alloc: Global, words: &[&[u8]]) -> Result<Option<Vec<Vec<u8>>>, AllocError>
    ensures { IfOk result (λ found. MatchOption found
        (SomeIsEmpty (map (λ word. word.now) words.now))
        (λ names. (map (λ name. name.items) names.items ≡ map (λ word. word.now) words.now) × NoneIsEmpty (map (λ word. word.now) words.now))) }
{
    let mut names = Vec::new(alloc);
    for i in 0..words.len() {
        let word = words[i];
        if word.len() == 0 {
            return Ok(None);
        }
        names.push(copy_of(alloc, word)?)?;
    }
    Ok(Some(names))
}

// The line of a row, where the row is of the form.
fn read_line(alloc: Global, row: &[u8]) -> Result<Option<JobLine>, AllocError>
    ensures { IfOk result (λ found. MatchOption found ((line : ListLine) → ¬ IsRowOf row.now line) (λ line. IsRowOf row.now (plain_line line))) }
{
    let all = words(alloc, row)?;
    if all.len() < 2 {
        return Ok(None);
    }
    let Some(sender) = submitter(all[0]) else {
        return Ok(None);
    };
    match read_names(alloc, &all[1..])? {
        None => Ok(None),
        Some(names) => Ok(Some(JobLine { sender, names })),
    }
}

// The lines, or the number of the first bad one.
fn read_lines(alloc: Global, text: &[u8]) -> Result<Result<Vec<JobLine>, u32>, AllocError>
    requires { length text.now ≤ 1048576 }
    ensures { IfOk result (IsReadAs text.now) }
{
    let all = rows(alloc, text)?;
    let mut lines = Vec::new(alloc);
    let last = all.len() - 1;
    for i in 0..last {
        let row = all[i];
        match read_line(alloc, row) {
            Ok(Some(line)) => lines.push(line)?,
            Ok(None) => return Ok(Err(i as u32 + 1)),
            Err(error) => return Err(error),
        }
    }
    let row = all[last];
    if row.len() == 0 {
        Ok(Ok(lines))
    } else {
        Ok(Err(last as u32 + 1))
    }
}

/// The lines of a list; or, exactly where some line isn't of the form or the last has no end, the number of the first such line.
pub fn read_list(alloc: Global, text: &[u8]) -> Result<Vec<JobLine>, ListFault>
    requires { length text.now ≤ 1048576 }
    ensures { IsListOf text.now result }
{
    match read_lines(alloc, text) {
        Ok(Ok(lines)) => Ok(lines),
        Ok(Err(line)) => Err(ListFault::BadLine { line }),
        Err(_) => Err(ListFault::Memory),
    }
}
