//! The rows of all procedures.

ghost use Rattle.std.specs.Prelude.{◌≡◌, IfOk};
ghost use Rattle.whole_page.specs.Rows.{detail_of, other_lines, other_traffic, room_behind, row_of, rows_of};
ghost use Rattle.whole_page.specs.Views.{maybe_view, view_of};

use crate::seen::Seen;
use lir_core::Flow;
use page_rows::{Detail, Row, Traffic, traffic_of};
use std::alloc::{AllocError, Global};

/// The most blocks of a procedure that is drawn.
const MOST_BLOCKS: usize = 400;

/// The most lines of code that a page shows.
const MOST_LINES: usize = 200_000;

// Whether a procedure is drawn and tabled.
fn detail_of(room: usize, blocks: usize, lines: usize, others: usize) -> Detail
    ensures { result ≡ detail_of room blocks lines others }
{
    if blocks > MOST_BLOCKS {
        return Detail::Large;
    }
    if lines > room || others > room - lines {
        return Detail::Late;
    }
    Detail::Shown
}

// The room for lines behind it.
fn room_behind(detail: Detail, room: usize, lines: usize, others: usize) -> usize
    ensures { result ≡ room_behind detail room lines others }
{
    match detail {
        Detail::Shown => room.saturating_sub(lines).saturating_sub(others),
        Detail::Large => room,
        Detail::Late => room,
    }
}

// How many lines it has by the other policy.
fn other_lines(other: &Option<Seen<'_>>, number: usize) -> usize
    ensures { result ≡ other_lines (maybe_view other.now) number }
{
    match other {
        Some(seen) => seen.lines_at(number).len(),
        None => 0,
    }
}

// What these move.
fn other_traffic(flow: &Flow, other: &Option<Seen<'_>>, number: usize) -> Option<Traffic>
    ensures { result ≡ other_traffic flow.now.nodes (maybe_view other.now) number }
{
    match other {
        Some(seen) => Some(traffic_of(flow, seen.lines_at(number))),
        None => None,
    }
}

// The row of a procedure, where there is room for so many lines.
#[tactic(auto, unfolding(crate::specs::Rows::row_of))]
fn row_of(own: &Seen<'_>, other: &Option<Seen<'_>>, room: usize, number: usize, flow: &Flow) -> Row
    ensures { result ≡ row_of (view_of own.now) (maybe_view other.now) room number flow.now }
{
    let blocks = flow.nodes.as_slice().len();
    let lines = own.lines_at(number);
    Row {
        number,
        blocks,
        values: flow.values,
        traces: own.traces_at(number).len(),
        traffic: traffic_of(flow, lines),
        other: other_traffic(flow, other, number),
        detail: detail_of(room, blocks, lines.len(), other_lines(other, number)),
    }
}

/// The rows of all procedures. Takes time in proportion to their lines.
pub(crate) fn rows_of(
    alloc: Global,
    own: &Seen<'_>,
    other: &Option<Seen<'_>>,
) -> Result<Vec<Row>, AllocError>
    ensures { IfOk result (λ rows. rows.items ≡ rows_of (view_of own.now) (maybe_view other.now)) }
{
    let flows = own.flows;
    let mut rows = Vec::with_capacity(alloc, flows.len())?;
    let mut room = MOST_LINES;
    for (number, flow) in flows.iter().enumerate() {
        let row = row_of(own, other, room, number, flow);
        let lines = own.lines_at(number).len();
        room = room_behind(row.detail, room, lines, other_lines(other, number));
        rows.push(row)?;
    }
    Ok(rows)
}
