//! The head of a procedure's section.

ghost use Rattle.std.specs.Prelude.{◌≡◌, ◌++◌, OnOk};
ghost use Rattle.page_rows.specs.Headings.{heading_at, place_at};
ghost use Rattle.page_rows.specs.Sections.{against_text, head_text, number_text, place_text, section_open, size_text, sum_text, title_text, traffic_text};

use crate::headings::{Sources, place_at};
use crate::row::Row;
use crate::rows::{put_detail_note, put_labelled};
use crate::traffic::Traffic;
use html_text::put_text;
use image_form::ProcPlace;
use std::alloc::{AllocError, Global};

// Appends what opens a section.
#[tactic(auto, unfolding(crate::specs::Sections::section_open))]
fn put_section_open(alloc: Global, text: &mut Vec<u8>, number: usize) -> Result<(), AllocError>
    ensures { OnOk result (text.new.items ≡ text.old.items ++ section_open number) }
{
    put_labelled(alloc, text, b"<section id=\"p", number as u64, b"\"><h2>")
}

#[tactic(auto, unfolding(crate::specs::Sections::title_text))]
fn put_title(
    alloc: Global,
    text: &mut Vec<u8>,
    sources: &Sources<'_>,
    number: usize,
    place: ProcPlace,
) -> Result<(), AllocError>
    ensures { OnOk result (text.new.items ≡ text.old.items ++ title_text number (heading_at sources.now.texts.now place)) }
{
    put_section_open(alloc, text, number)?;
    sources.put_heading(text, place)?;
    put_text(text, b"</h2>")
}

#[tactic(auto, unfolding(crate::specs::Sections::number_text))]
fn put_number_text(alloc: Global, text: &mut Vec<u8>, number: usize) -> Result<(), AllocError>
    ensures { OnOk result (text.new.items ≡ text.old.items ++ number_text number) }
{
    put_labelled(
        alloc,
        text,
        b"<p class=\"sum\">procedure ",
        number as u64,
        b", ",
    )
}

#[tactic(auto, unfolding(crate::specs::Sections::place_text))]
fn put_place(
    alloc: Global,
    text: &mut Vec<u8>,
    number: usize,
    place: ProcPlace,
) -> Result<(), AllocError>
    ensures { OnOk result (text.new.items ≡ text.old.items ++ place_text number place) }
{
    put_number_text(alloc, text, number)?;
    put_labelled(alloc, text, b"module ", u64::from(place.module), b" line ")?;
    put_labelled(alloc, text, b"", u64::from(place.line), b": ")
}

#[tactic(auto, unfolding(crate::specs::Sections::size_text))]
fn put_size(alloc: Global, text: &mut Vec<u8>, row: Row) -> Result<(), AllocError>
    ensures { OnOk result (text.new.items ≡ text.old.items ++ size_text row) }
{
    put_labelled(alloc, text, b"", row.blocks as u64, b" blocks, ")?;
    put_labelled(alloc, text, b"", u64::from(row.values), b" values, ")?;
    put_labelled(alloc, text, b"", row.traces as u64, b" traces; ")
}

#[tactic(auto, unfolding(crate::specs::Sections::traffic_text))]
fn put_traffic(alloc: Global, text: &mut Vec<u8>, traffic: Traffic) -> Result<(), AllocError>
    ensures { OnOk result (text.new.items ≡ text.old.items ++ traffic_text traffic) }
{
    put_labelled(alloc, text, b"", traffic.stores as u64, b" stores, ")?;
    put_labelled(alloc, text, b"", traffic.loads as u64, b" loads, ")?;
    put_labelled(alloc, text, b"", traffic.moves as u64, b" moves")
}

#[tactic(auto, unfolding(crate::specs::Sections::against_text))]
fn put_against(
    alloc: Global,
    text: &mut Vec<u8>,
    traffic: Option<Traffic>,
) -> Result<(), AllocError>
    ensures { OnOk result (text.new.items ≡ text.old.items ++ against_text traffic) }
{
    match traffic {
        Some(traffic) => {
            put_text(text, b"; against ")?;
            put_traffic(alloc, text, traffic)
        }
        None => Ok(()),
    }
}

#[tactic(auto, unfolding(crate::specs::Sections::sum_text))]
fn put_sum(alloc: Global, text: &mut Vec<u8>, place: ProcPlace, row: Row) -> Result<(), AllocError>
    ensures { OnOk result (text.new.items ≡ text.old.items ++ sum_text place row) }
{
    put_place(alloc, text, row.number, place)?;
    put_size(alloc, text, row)?;
    put_traffic(alloc, text, row.traffic)?;
    put_against(alloc, text, row.other)?;
    put_detail_note(text, row.detail)?;
    put_text(text, b"</p>\n")
}

/// Appends what a procedure's section begins with: its heading, its sum, and its lines.
#[tactic(auto, unfolding(crate::specs::Sections::head_text))]
pub fn put_section_head(
    alloc: Global,
    text: &mut Vec<u8>,
    sources: &Sources<'_>,
    row: Row,
) -> Result<(), AllocError>
    ensures { OnOk result (text.new.items ≡ text.old.items
        ++ head_text sources.now.texts.now sources.now.places.now (place_at sources.now.places.now row.number) row) }
{
    let place = place_at(sources.places, row.number);
    put_title(alloc, text, sources, row.number, place)?;
    put_sum(alloc, text, place, row)?;
    sources.put_lines(alloc, text, place)
}
