//! The sections of procedures.

ghost use Rattle.std.specs.Prelude.{◌≡◌, ◌++◌, ◌+◌, ◌<◌, OnOk, IfOk, length};
ghost use Rattle.whole_page.specs.Sections.{body_text, column_text, drawing_of, graph_text, other_tables, own_column, section_text, sections_text, shown_text};
ghost use Rattle.whole_page.specs.Tables.{tables_at};
ghost use Rattle.whole_page.specs.Views.{maybe_view, view_of};
ghost use Rattle.whole_page.specs.declared.sections.Filled.TheVariants.{TooLong, Whole};

use crate::choices::put_policy;
use crate::frames::{pair_close, pair_next, pair_open, section_close};
use crate::seen::Seen;
use crate::tables::put_tables_at;
use alloc_choice::Policy;
use flow_drawing::put_drawing;
use html_text::put_text;
use lir_core::{Flow, Trace};
use outside::Memory;
use page_rows::{Detail, Row, Sources, put_section_head};
use std::alloc::{AllocError, Global};

/// The most bytes of a page.
pub(crate) const MOST_BYTES: usize = 67_108_864;

/// Whether all of a page was appended, or it would have over 67,108,864 bytes.
#[derive(Clone, Copy, PartialEq, Eq, Debug)]
pub(crate) enum Filled {
    Whole,
    TooLong,
}

// Appends the drawing of a flow.
#[tactic(auto, unfolding(crate::specs::Sections::drawing_of))]
fn put_drawing_of(
    alloc: Global,
    text: &mut Vec<u8>,
    number: usize,
    flow: &Flow,
    traces: &[Trace],
) -> Result<(), Memory>
    ensures { OnOk result (text.new.items ≡ text.old.items ++ drawing_of number flow.now traces.now) }
{
    put_drawing(alloc, text, number, flow, traces)
}

// Appends the drawing of a procedure's flow.
#[tactic(auto, unfolding(crate::specs::Sections::graph_text))]
fn put_graph(
    alloc: Global,
    text: &mut Vec<u8>,
    seen: &Seen<'_>,
    number: usize,
) -> Result<(), Memory>
    ensures { OnOk result (text.new.items ≡ text.old.items ++ graph_text (view_of seen.now) number) }
{
    match seen.flows.get(number) {
        Some(flow) => put_drawing_of(alloc, text, number, flow, seen.traces_at(number)),
        None => Ok(()),
    }
}

// Appends what stands above the tables by a policy.
#[tactic(auto, unfolding(crate::specs::Sections::column_text))]
fn put_column(text: &mut Vec<u8>, policy: Policy) -> Result<(), AllocError>
    ensures { OnOk result (text.new.items ≡ text.old.items ++ column_text policy) }
{
    put_text(text, b"<h4>")?;
    put_policy(text, policy)?;
    put_text(text, b"</h4>\n")
}

// Appends it above a page's own tables, where there are those by another policy.
#[tactic(auto, unfolding(crate::specs::Sections::own_column))]
fn put_own_column(
    text: &mut Vec<u8>,
    other: &Option<Seen<'_>>,
    policy: Policy,
) -> Result<(), AllocError>
    ensures { OnOk result (text.new.items ≡ text.old.items ++ own_column (maybe_view other.now) policy) }
{
    match other {
        Some(_) => put_column(text, policy),
        None => Ok(()),
    }
}

// Appends those by the other policy, where there is one.
#[tactic(auto, unfolding(crate::specs::Sections::other_tables))]
fn put_other_tables(
    alloc: Global,
    text: &mut Vec<u8>,
    other: &Option<Seen<'_>>,
    shift: usize,
    number: usize,
) -> Result<(), Memory>
    ensures { OnOk result (text.new.items ≡ text.old.items ++ other_tables (maybe_view other.now) shift number) }
{
    match other {
        Some(seen) => {
            put_text(text, pair_next())?;
            put_column(text, seen.choice.policy)?;
            put_tables_at(alloc, text, seen, shift, number)
        }
        None => Ok(()),
    }
}

// Appends the drawing, and the tables beside it.
#[tactic(auto, unfolding(crate::specs::Sections::shown_text))]
fn put_shown(
    alloc: Global,
    text: &mut Vec<u8>,
    own: &Seen<'_>,
    other: &Option<Seen<'_>>,
    number: usize,
) -> Result<(), Memory>
    ensures { OnOk result (text.new.items ≡ text.old.items ++ shown_text (view_of own.now) (maybe_view other.now) number) }
{
    put_text(text, pair_open())?;
    put_graph(alloc, text, own, number)?;
    put_text(text, pair_next())?;
    put_own_column(text, other, own.choice.policy)?;
    put_tables_at(alloc, text, own, 0, number)?;
    put_other_tables(alloc, text, other, own.flows.len(), number)?;
    put_text(text, pair_close())?;
    Ok(())
}

// Appends them where a procedure is drawn and tabled.
#[tactic(auto, unfolding(crate::specs::Sections::body_text))]
fn put_body(
    alloc: Global,
    text: &mut Vec<u8>,
    own: &Seen<'_>,
    other: &Option<Seen<'_>>,
    number: usize,
    detail: Detail,
) -> Result<(), Memory>
    ensures { OnOk result (text.new.items ≡ text.old.items ++ body_text (view_of own.now) (maybe_view other.now) number detail) }
{
    match detail {
        Detail::Shown => put_shown(alloc, text, own, other, number),
        Detail::Large => Ok(()),
        Detail::Late => Ok(()),
    }
}

// Appends the section of a procedure.
#[tactic(auto, unfolding(crate::specs::Sections::section_text))]
fn put_section(
    alloc: Global,
    text: &mut Vec<u8>,
    sources: &Sources<'_>,
    own: &Seen<'_>,
    other: &Option<Seen<'_>>,
    row: Row,
) -> Result<(), Memory>
    requires { sources.now.places.now ≡ own.now.places.now }
    ensures { OnOk result (text.new.items ≡ text.old.items
        ++ section_text sources.now.texts.now (view_of own.now) (maybe_view other.now) row) }
{
    put_section_head(alloc, text, sources, row)?;
    put_body(alloc, text, own, other, row.number, row.detail)?;
    put_text(text, section_close())?;
    Ok(())
}

/// Appends the sections of procedures, and stops where the page is too long with these.
pub(crate) fn put_sections(
    alloc: Global,
    text: &mut Vec<u8>,
    sources: &Sources<'_>,
    own: &Seen<'_>,
    other: &Option<Seen<'_>>,
    rows: &[Row],
) -> Result<Filled, Memory>
    requires { sources.now.places.now ≡ own.now.places.now }
    ensures whole { IfOk result (λ filled. filled ≡ Whole → text.new.items ≡ text.old.items
        ++ sections_text sources.now.texts.now (view_of own.now) (maybe_view other.now) rows.now) }
    ensures long { IfOk result (λ filled. filled ≡ TooLong → 67108864 < length text.old.items
        + length (sections_text sources.now.texts.now (view_of own.now) (maybe_view other.now) rows.now)) }
{
    for row in rows {
        put_section(alloc, text, sources, own, other, *row)?;
        if text.len() > MOST_BYTES {
            return Ok(Filled::TooLong);
        }
    }
    Ok(Filled::Whole)
}
