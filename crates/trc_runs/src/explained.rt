//! The explanations: the example of each page of `explanations` is tried over files in memory, and what is printed is whether it gives
//! what its page says, and the mended example nothing of it. The pages are held against those in `EXPLAIN.md`, which is the document's
//! text.

use crate::documents::is_document;
use crate::trying::is_true;
use anyhow::Result;
use explanations::{Kind, PAGES, entry_of, has_page};
use std::alloc::AllocGlobal;
use std::io::Print;
use std::sync::Wait;
use std::thread::Threads;
use trc_answers::{limit_name, rule_name};
use trc_base::Files;

/// The most bytes of the document.
const MOST: usize = 1_048_576;

/// The kinds of pages.
const KINDS: [Kind; 6] = [
    Kind::Fault,
    Kind::Limit,
    Kind::Trap,
    Kind::ImageRule,
    Kind::NotesRule,
    Kind::ObjectRule,
];

/// How many pages a number has.
fn count_of(number: u8) -> usize {
    let mut count: usize = 0;
    for kind in KINDS {
        if entry_of(kind, number).is_some() {
            count = count.saturating_add(1);
        }
    }
    count
}

/// How many pages all numbers have, where a number is known to have some exactly where it has, and the names of faults and limits are
/// those that are told; else nothing.
fn pages_of_all() -> Option<usize> {
    let mut count: usize = 0;
    for number in 0..=u8::MAX {
        if has_page(number) != (count_of(number) > 0) {
            return None;
        }
        if let Some(entry) = entry_of(Kind::Fault, number)
            && entry.name != rule_name(number)
        {
            return None;
        }
        if let Some(entry) = entry_of(Kind::Limit, number)
            && entry.name.as_bytes() != limit_name(number)
        {
            return None;
        }
        count = count.saturating_add(count_of(number));
    }
    Some(count)
}

/// Prints of each page whether its example does as the page says, and then whether all are listed and the document in these files has
/// them.
pub(crate) fn print_explained<R: Threads + Wait + AllocGlobal + Sync + Print, F: Files>(
    rt: &R,
    files: &mut F,
) -> Result<()> {
    for (kind, number) in PAGES {
        let Some(entry) = entry_of(kind, number) else {
            println!(rt; "{number}: no page")?;
            continue;
        };
        let verdict = if is_true(rt, &entry)? {
            "as its page says"
        } else {
            "NOT as its page says"
        };
        println!(rt; "{number} {}: {verdict}", entry.name)?;
    }
    let all = pages_of_all() == Some(PAGES.len());
    println!(rt; "all pages listed: {all}")?;
    let text = files.read(rt.alloc(), "EXPLAIN.md", MOST)?;
    let same = is_document(rt.alloc(), text.as_slice())?;
    println!(rt; "the document holds them: {same}")?;
    Ok(())
}
