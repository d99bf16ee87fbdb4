//! The whole page.

ghost use Rattle.std.specs.Prelude.{◌≡◌, ◌++◌, map, OnOk, IfOk};
ghost use Rattle.std.specs.Option.{is_some};
ghost use Rattle.page_parts.specs.Sources.{line_starts};
ghost use Rattle.whole_page.specs.Pages.{IsPage, front_text, header_text, page_text, title_text};
ghost use Rattle.whole_page.specs.Rows.{rows_of};
ghost use Rattle.whole_page.specs.Views.{maybe_view, view_of};

use crate::choices::{put_choices, put_files};
use crate::frames::{beginning, marker, script, style};
use crate::rows::rows_of;
use crate::sections::{Filled, MOST_BYTES, put_sections};
use crate::seen::Seen;
use crate::summaries::put_summary;
use alloc_choice::{Choice, Policy};
use html_text::put_text;
use image_form::Image;
use items::Items;
use outside::Memory;
use page_parts::line_starts;
use page_rows::{Row, Sources};
use std::alloc::{AllocError, Global};

/// What was asked: files by their names, a choice, and another policy beside it.
#[derive(Clone, Copy)]
pub struct Asked<'a> {
    pub names: &'a [&'a str],
    pub choice: &'a Choice,
    pub policy: Option<Policy>,
}

// Appends what stands up to the heading of the page.
#[tactic(auto, unfolding(crate::specs::Pages::title_text))]
fn put_title(text: &mut Vec<u8>, names: &[&str]) -> Result<(), AllocError>
    ensures { OnOk result (text.new.items ≡ text.old.items ++ title_text (map (λ name. name.now) names.now)) }
{
    put_text(text, beginning())?;
    put_files(text, names)?;
    put_text(text, style())?;
    put_text(text, marker())?;
    put_files(text, names)?;
    put_text(text, b"</h1>")
}

// Appends the header.
#[tactic(auto, unfolding(crate::specs::Pages::header_text))]
fn put_header(
    alloc: Global,
    text: &mut Vec<u8>,
    asked: &Asked<'_>,
    image: &Image,
) -> Result<(), AllocError>
    ensures { OnOk result (text.new.items ≡ text.old.items
        ++ header_text (map (λ name. name.now) asked.now.names.now) asked.now.choice.now asked.now.policy image.now) }
{
    put_title(text, asked.names)?;
    put_choices(alloc, text, asked.choice, asked.policy, image)
}

// Appends the header, and the table that sums up.
#[tactic(auto, unfolding(crate::specs::Pages::front_text))]
fn put_front(
    alloc: Global,
    text: &mut Vec<u8>,
    asked: &Asked<'_>,
    image: &Image,
    sources: &Sources<'_>,
    own: &Seen<'_>,
    other: &Option<Seen<'_>>,
    rows: &[Row],
) -> Result<(), AllocError>
    requires places { sources.now.places.now ≡ own.now.places.now }
    requires rows { rows.now ≡ rows_of (view_of own.now) (maybe_view other.now) }
    ensures { OnOk result (text.new.items ≡ text.old.items
        ++ front_text (map (λ name. name.now) asked.now.names.now) sources.now.texts.now asked.now.choice.now asked.now.policy image.now (view_of own.now) (maybe_view other.now)) }
{
    put_header(alloc, text, asked, image)?;
    put_summary(alloc, text, sources, rows, other.is_some())
}

// The page, or none where it is too long.
fn whole_page(
    alloc: Global,
    asked: &Asked<'_>,
    image: &Image,
    sources: &Sources<'_>,
    own: &Seen<'_>,
    other: &Option<Seen<'_>>,
) -> Result<Option<Vec<u8>>, Memory>
    requires { sources.now.places.now ≡ own.now.places.now }
    ensures { IfOk result (IsPage (page_text (map (λ name. name.now) asked.now.names.now) sources.now.texts.now asked.now.choice.now asked.now.policy image.now
        (view_of own.now) (maybe_view other.now))) }
{
    let rows = rows_of(alloc, own, other)?;
    let rows = rows.as_slice();
    let mut text = Vec::new(alloc);
    put_front(alloc, &mut text, asked, image, sources, own, other, rows)?;
    match put_sections(alloc, &mut text, sources, own, other, rows)? {
        Filled::Whole => {}
        Filled::TooLong => return Ok(None),
    }
    put_text(&mut text, script())?;
    if text.len() > MOST_BYTES {
        return Ok(None);
    }
    Ok(Some(text))
}

// Where the lines of texts begin.
fn all_starts(alloc: Global, texts: &[Items<u8>]) -> Result<Vec<Vec<usize>>, AllocError>
    ensures { IfOk result (λ starts. map (λ v. v.items) starts.items ≡ map line_starts texts.now) }
{
    let mut starts = Vec::with_capacity(alloc, texts.len())?;
    for text in texts {
        starts.push(line_starts(alloc, text.as_slice())?)?;
    }
    Ok(starts)
}

/// The page of a program, from the texts of its modules and its image with what that was made from, and by another policy too, where
/// there is one; or none where it would have over 67,108,864 bytes. Takes time in proportion to texts, flows and the page, and to the
/// square of the number of procedures.
pub fn page_of(
    alloc: Global,
    asked: &Asked<'_>,
    image: &Image,
    texts: &[Items<u8>],
    own: &Seen<'_>,
    other: &Option<Seen<'_>>,
) -> Result<Option<Vec<u8>>, Memory>
    ensures { IfOk result (IsPage (page_text (map (λ name. name.now) asked.now.names.now) texts.now asked.now.choice.now asked.now.policy image.now
        (view_of own.now) (maybe_view other.now))) }
{
    let starts = all_starts(alloc, texts)?;
    let sources = Sources::new(texts, starts.as_slice(), own.places);
    whole_page(alloc, asked, image, &sources, own, other)
}
