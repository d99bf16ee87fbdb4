//! The table that sums up procedures.

ghost use Rattle.std.specs.Prelude.{◌≡◌, ◌++◌, map, IfOk, OnOk};
ghost use Rattle.whole_page.specs.Summaries.{heads_text, rank_of, ranked_text, ranked_texts, summary_text};

use crate::frames::{against, heads_close, summary, summary_close};
use html_text::put_text;
use page_parts::{Rank, ordered};
use page_rows::{Row, Sources, put_row};
use std::alloc::{AllocError, Global};

// What procedures weigh.
fn ranks_of(alloc: Global, rows: &[Row]) -> Result<Vec<Rank>, AllocError>
    ensures { IfOk result (λ ranks. ranks.items ≡ map rank_of rows.now) }
{
    let mut ranks = Vec::with_capacity(alloc, rows.len())?;
    for row in rows {
        ranks.push(Rank {
            weight: row.traffic.weight,
            number: row.number,
        })?;
    }
    Ok(ranks)
}

// Appends the row of a procedure.
#[tactic(auto, unfolding(crate::specs::Summaries::ranked_text))]
fn put_ranked(
    alloc: Global,
    text: &mut Vec<u8>,
    sources: &Sources<'_>,
    rows: &[Row],
    rank: Rank,
) -> Result<(), AllocError>
    ensures { OnOk result (text.new.items ≡ text.old.items ++ ranked_text sources.now.texts.now sources.now.places.now rows.now rank) }
{
    match rows.get(rank.number) {
        Some(row) => put_row(alloc, text, sources, *row),
        None => Ok(()),
    }
}

// Appends the rows of procedures in order.
#[tactic(auto, unfolding(crate::specs::Summaries::ranked_texts))]
fn put_all_ranked(
    alloc: Global,
    text: &mut Vec<u8>,
    sources: &Sources<'_>,
    rows: &[Row],
    ranks: &[Rank],
) -> Result<(), AllocError>
    ensures { OnOk result (text.new.items ≡ text.old.items ++ ranked_texts sources.now.texts.now sources.now.places.now rows.now ranks.now) }
{
    for rank in ranks {
        put_ranked(alloc, text, sources, rows, *rank)?;
    }
    Ok(())
}

// Appends the head of the table.
#[tactic(auto, unfolding(crate::specs::Summaries::heads_text))]
fn put_heads(text: &mut Vec<u8>, other: bool) -> Result<(), AllocError>
    ensures { OnOk result (text.new.items ≡ text.old.items ++ heads_text other) }
{
    put_text(text, summary())?;
    put_text(text, against(other))?;
    put_text(text, heads_close())
}

/// Appends the table that sums up procedures.
#[tactic(auto, unfolding(crate::specs::Summaries::summary_text))]
pub(crate) fn put_summary(
    alloc: Global,
    text: &mut Vec<u8>,
    sources: &Sources<'_>,
    rows: &[Row],
    other: bool,
) -> Result<(), AllocError>
    ensures { OnOk result (text.new.items ≡ text.old.items ++ summary_text sources.now.texts.now sources.now.places.now rows.now other) }
{
    let ranks = ranks_of(alloc, rows)?;
    let order = ordered(alloc, ranks.as_slice())?;
    put_heads(text, other)?;
    put_all_ranked(alloc, text, sources, rows, order.as_slice())?;
    put_text(text, summary_close())
}
