//! An example is tried.

use crate::calls::call_in_memory;
use crate::example_files::put_example;
use crate::templates::written_out;
use anyhow::Result;
use explanations::Entry;
use std::alloc::AllocGlobal;
use std::sync::Wait;
use std::thread::Threads;
use trc_base::MemFiles;

/// What stands before a call in a page.
const CALL: &str = "$ trc ";

/// Makes the call of these words over these files, and gives the line that is told.
fn line_of<R: Threads + Wait + AllocGlobal + Sync>(
    rt: &R,
    words: &str,
    files: &mut MemFiles,
) -> Result<Vec<u8>> {
    let text = written_out(rt.alloc(), words)?;
    let mut words = Vec::new(rt.alloc());
    for word in text.as_str().split(' ') {
        if !word.is_empty() {
            words.push(String::from_str(rt.alloc(), word)?)?;
        }
    }
    let none = Vec::new(rt.alloc());
    let seen = call_in_memory(rt, words.as_slice(), none, files)?;
    Ok(seen.err)
}

/// Whether a page's example gives what the page says, and the mended one nothing.
pub(crate) fn is_true<R: Threads + Wait + AllocGlobal + Sync>(
    rt: &R,
    entry: &Entry,
) -> Result<bool> {
    let (first, told) = entry.session.split_once('\n').unwrap_or(("", ""));
    let words = first.strip_prefix(CALL).unwrap_or("");
    let mut files = MemFiles::new(rt.alloc(), Vec::new(rt.alloc()));
    put_example(rt.alloc(), &mut files, entry.example)?;
    let line = line_of(rt, words, &mut files)?;
    if line.as_slice().strip_suffix(b"\n") != Some(told.as_bytes()) {
        return Ok(false);
    }
    put_example(rt.alloc(), &mut files, entry.mended)?;
    let again = entry.mended.strip_prefix(CALL).unwrap_or(words);
    Ok(line_of(rt, again, &mut files)?.is_empty())
}
