//! The text of an explanation.

ghost use Rattle.std.specs.Prelude.{◌≡◌, [], ◌++◌, IfOk, OnOk};
ghost use Rattle.explanations.specs.Entries.{heading, page_text, paragraph, plain};
ghost use Rattle.explanations.specs.Explained.{explanation, gap, has_page, line_of, lines_of, number_text, with_page};

use crate::entry::Entry;
use crate::kind::{Kind, PAGES, entry_of, kind_word};
use crate::topic::Topic;
use crate::usage::usage;
use std::alloc::{AllocError, Global};

/// Whether a number has a page.
pub fn has_page(number: u8) -> bool
    ensures { result ≡ has_page number }
{
    entry_of(Kind::Fault, number).is_some()
        || entry_of(Kind::Limit, number).is_some()
        || entry_of(Kind::Trap, number).is_some()
        || entry_of(Kind::ImageRule, number).is_some()
        || entry_of(Kind::NotesRule, number).is_some()
        || entry_of(Kind::ObjectRule, number).is_some()
}

/// Appends a page's first line.
fn put_heading(
    alloc: Global,
    text: &mut Vec<u8>,
    kind: Kind,
    number: u8,
    entry: &Entry,
) -> Result<(), AllocError>
    ensures { OnOk result (text.new.items ≡ text.old.items ++ heading kind number (plain entry.now)) }
{
    let digits = format!(in alloc; "{number}")?;
    text.extend_from_slice(kind_word(kind).as_bytes())?;
    text.push(b' ')?;
    text.extend_from_slice(digits.as_bytes())?;
    text.push(b' ')?;
    text.extend_from_slice(entry.name.as_bytes())?;
    text.extend_from_slice(b": ")?;
    text.extend_from_slice(entry.title.as_bytes())?;
    text.push(b'\n')?;
    Ok(())
}

/// Appends a paragraph, behind an empty line.
fn put_paragraph(text: &mut Vec<u8>, lines: &str) -> Result<(), AllocError>
    ensures { OnOk result (text.new.items ≡ text.old.items ++ paragraph lines.now) }
{
    text.push(b'\n')?;
    text.extend_from_slice(lines.as_bytes())?;
    text.push(b'\n')?;
    Ok(())
}

/// Appends a whole page.
fn put_page(
    alloc: Global,
    text: &mut Vec<u8>,
    kind: Kind,
    number: u8,
    entry: &Entry,
) -> Result<(), AllocError>
    ensures { OnOk result (text.new.items ≡ text.old.items ++ page_text kind number (plain entry.now)) }
{
    put_heading(alloc, text, kind, number, entry)?;
    put_paragraph(text, entry.more)?;
    put_paragraph(text, entry.example)?;
    put_paragraph(text, entry.session)?;
    put_paragraph(text, "Mended:")?;
    put_paragraph(text, entry.mended)
}

/// Appends an empty line behind what is there.
fn put_gap(text: &mut Vec<u8>) -> Result<(), AllocError>
    ensures { OnOk result (text.new.items ≡ text.old.items ++ gap text.old.items) }
{
    if !text.is_empty() {
        text.push(b'\n')?;
    }
    Ok(())
}

/// Appends the page of this kind and number, where there is one, with an empty line between what is there and it.
fn put_kind(alloc: Global, text: &mut Vec<u8>, kind: Kind, number: u8) -> Result<(), AllocError>
    ensures { OnOk result (text.new.items ≡ with_page number text.old.items kind) }
{
    if let Some(entry) = entry_of(kind, number) {
        put_gap(text)?;
        put_page(alloc, text, kind, number, &entry)?;
    }
    Ok(())
}

/// The page of this kind and number, or no bytes where there is none.
pub fn page(alloc: Global, kind: Kind, number: u8) -> Result<Vec<u8>, AllocError>
    ensures { IfOk result (λ text. text.items ≡ with_page number [] kind) }
{
    let mut text = Vec::new(alloc);
    put_kind(alloc, &mut text, kind, number)?;
    Ok(text)
}

/// The pages of a number, one behind the other.
#[tactic(auto, unfolding(crate::specs::Explained::number_text))]
fn number_text(alloc: Global, number: u8) -> Result<Vec<u8>, AllocError>
    ensures { IfOk result (λ text. text.items ≡ number_text number) }
{
    let mut text = Vec::new(alloc);
    put_kind(alloc, &mut text, Kind::Fault, number)?;
    put_kind(alloc, &mut text, Kind::Limit, number)?;
    put_kind(alloc, &mut text, Kind::Trap, number)?;
    put_kind(alloc, &mut text, Kind::ImageRule, number)?;
    put_kind(alloc, &mut text, Kind::NotesRule, number)?;
    put_kind(alloc, &mut text, Kind::ObjectRule, number)?;
    Ok(text)
}

/// Appends the first line of the page of this kind and number, where there is one.
fn put_line(alloc: Global, text: &mut Vec<u8>, kind: Kind, number: u8) -> Result<(), AllocError>
    ensures { OnOk result (text.new.items ≡ text.old.items ++ line_of kind number) }
{
    if let Some(entry) = entry_of(kind, number) {
        put_heading(alloc, text, kind, number, &entry)?;
    }
    Ok(())
}

/// Appends the first lines of pages.
#[tactic(auto, unfolding(crate::specs::Explained::lines_of))]
fn put_lines(alloc: Global, text: &mut Vec<u8>, pages: &[(Kind, u8)]) -> Result<(), AllocError>
    ensures { OnOk result (text.new.items ≡ text.old.items ++ lines_of pages.now) }
{
    for (kind, number) in pages {
        put_line(alloc, text, *kind, *number)?;
    }
    Ok(())
}

/// The first lines of all pages.
fn page_list(alloc: Global) -> Result<Vec<u8>, AllocError>
    ensures { IfOk result (λ text. text.items ≡ lines_of PAGES) }
{
    let mut text = Vec::new(alloc);
    put_lines(alloc, &mut text, &PAGES)?;
    Ok(text)
}

/// The text that explains a topic.
#[tactic(auto, unfolding(crate::specs::Explained::explanation))]
pub fn explanation(alloc: Global, topic: Topic) -> Result<Vec<u8>, AllocError>
    ensures { IfOk result (λ text. text.items ≡ explanation topic) }
{
    match topic {
        Topic::Pages => page_list(alloc),
        Topic::Usage => Vec::from_slice(alloc, usage().as_bytes()),
        Topic::Number(number) => number_text(alloc, number),
    }
}
