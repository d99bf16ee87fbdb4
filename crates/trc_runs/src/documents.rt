//! The document.

use anyhow::Result;
use explanations::{PAGES, Topic, explanation, page};
use std::alloc::Global;

/// What stands in a document's blocks of code, one behind the other.
fn blocks_of(alloc: Global, text: &[u8]) -> Result<Vec<u8>> {
    let mut blocks = Vec::new(alloc);
    let mut inside = false;
    for line in text.split(|byte| *byte == b'\n') {
        if line == b"```".as_slice() {
            inside = !inside;
        } else if inside {
            blocks.extend_from_slice(line)?;
            blocks.push(b'\n')?;
        }
    }
    Ok(blocks)
}

/// Whether a document's blocks of code are the text of `explain usage` and those of all pages, in their order.
pub(crate) fn is_document(alloc: Global, text: &[u8]) -> Result<bool> {
    let mut all = explanation(alloc, Topic::Usage)?;
    for (kind, number) in PAGES {
        all.extend_from_slice(page(alloc, kind, number)?.as_slice())?;
    }
    Ok(blocks_of(alloc, text)?.as_slice() == all.as_slice())
}
