//! The source of a procedure.

ghost use Rattle.std.specs.Prelude.{◌≡◌, ◌++◌, OnOk, take};
ghost use Rattle.page_parts.specs.Excerpts.{behind_shown, bytes_left, cut_lines, heading_text, lines_left, more_lines, source_text};

use crate::putting::put_number_between;
use crate::sources::SourceText;
use html_text::{put_escaped, put_text};
use std::alloc::{AllocError, Global};

/// The most lines of a procedure that are shown.
const MOST_LINES: usize = 200;

/// The most bytes of these.
const MOST_BYTES: usize = 16_384;

// Its first bytes.
fn beginning(bytes: &[u8], most: usize) -> &[u8]
    ensures { result.now ≡ take most bytes.now }
{
    &bytes[..most.min(bytes.len())]
}

// Appends that bytes are left out.
#[tactic(auto, unfolding(crate::specs::Excerpts::bytes_left))]
fn put_bytes_left(text: &mut Vec<u8>, lines: &[u8]) -> Result<(), AllocError>
    ensures { OnOk result (text.new.items ≡ text.old.items ++ bytes_left lines.now) }
{
    if lines.len() > MOST_BYTES {
        put_text(text, b"<i>and more in these lines</i>\n")?;
    }
    Ok(())
}

// Appends lines, or the beginning of them.
#[tactic(auto, unfolding(crate::specs::Excerpts::cut_lines))]
fn put_cut(text: &mut Vec<u8>, lines: &[u8]) -> Result<(), AllocError>
    ensures { OnOk result (text.new.items ≡ text.old.items ++ cut_lines lines.now) }
{
    put_escaped(text, beginning(lines, MOST_BYTES))?;
    put_bytes_left(text, lines)
}

// The line behind those that are shown.
fn behind_shown(first: usize, behind: usize) -> usize
    ensures { result ≡ behind_shown first behind }
{
    behind.min(first.saturating_add(MOST_LINES))
}

// Appends that so many lines are left out.
#[tactic(auto, unfolding(crate::specs::Excerpts::more_lines))]
fn put_more(alloc: Global, text: &mut Vec<u8>, count: usize) -> Result<(), AllocError>
    ensures { OnOk result (text.new.items ≡ text.old.items ++ more_lines count) }
{
    put_number_between(alloc, text, b"<i>and ", count as u64, b" more lines</i>")
}

// Appends how many lines are left out, from that one on.
#[tactic(auto, unfolding(crate::specs::Excerpts::lines_left))]
fn put_left(
    alloc: Global,
    text: &mut Vec<u8>,
    shown: usize,
    behind: usize,
) -> Result<(), AllocError>
    ensures { OnOk result (text.new.items ≡ text.old.items ++ lines_left shown behind) }
{
    if shown < behind {
        put_more(alloc, text, behind - shown)?;
    }
    Ok(())
}

/// Appends the lines of a procedure, from its heading to before those of the next one: at most 200, and at most 16,384 bytes of
/// these. What is left out is told.
#[tactic(auto, unfolding(crate::specs::Excerpts::source_text))]
pub fn put_source(
    alloc: Global,
    text: &mut Vec<u8>,
    source: &SourceText<'_>,
    first: usize,
    behind: usize,
) -> Result<(), AllocError>
    ensures { OnOk result (text.new.items ≡ text.old.items ++ source_text source.now.bytes.now first behind) }
{
    let shown = behind_shown(first, behind);
    put_text(text, b"<pre>")?;
    put_cut(text, source.lines_between(first, shown))?;
    put_left(alloc, text, shown, behind)?;
    put_text(text, b"</pre>")
}

/// Appends the line of a procedure's heading, or the first 120 bytes of it.
#[tactic(auto, unfolding(crate::specs::Excerpts::heading_text))]
pub fn put_heading(
    text: &mut Vec<u8>,
    source: &SourceText<'_>,
    first: usize,
) -> Result<(), AllocError>
    ensures { OnOk result (text.new.items ≡ text.old.items ++ heading_text source.now.bytes.now first) }
{
    let line = source.lines_between(first, first.saturating_add(1));
    put_escaped(text, beginning(line, 120))
}
