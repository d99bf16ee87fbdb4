//! The blocks of traces.

ghost use Rattle.std.specs.Prelude.{◌≡◌, slice_index_or, []};
ghost use Rattle.lir_core.specs.Flows.{node_at};
ghost use Rattle.lir_core.specs.Sound.{no_places};
ghost use Rattle.boundary_resolve.specs.Placing.{out_at, is_test};
ghost use Rattle.trace_rows.specs.Rows.{plain_seat};
ghost use Rattle.trace_tables.specs.Tables.{plain_shown, last_edge, either_edge, is_tested, empty_edge, first_edge, seat_of};

use crate::nothing::Nothing;
use crate::shown::ShownProcedure;
use lir_core::{Flow, Leave, Line, Node, Places, TraceOut};
use trace_rows::{EdgeName, Seat};

fn node_at<'a>(flow: &'a Flow, nothing: &'a Nothing, number: u32) -> &'a Node
    ensures { result.now ≡ node_at flow.now.nodes number }
{
    match flow.nodes.as_slice().get(number as usize) {
        Some(node) => node,
        None => &nothing.node,
    }
}

/// What registers have where the first block of the first trace begins.
pub(crate) fn first_registers<'a>(shown: &ShownProcedure<'a>) -> &'a [Option<u32>]
    ensures { result.now ≡ (slice_index_or (out_at shown.now.outs.now 0).starts 0 no_places).regs }
{
    let Some(out) = shown.outs.get(0) else {
        return &[];
    };
    match out.starts.as_slice().get(0) {
        Some(places) => places.regs.as_slice(),
        None => &[],
    }
}

fn out_at<'a>(shown: &ShownProcedure<'a>, nothing: &'a Nothing, trace: usize) -> &'a TraceOut
    ensures { result.now ≡ out_at shown.now.outs.now trace }
{
    match shown.outs.get(trace) {
        Some(out) => out,
        None => &nothing.out,
    }
}

fn places_at<'a>(list: &'a [Places], nothing: &'a Nothing, place: usize) -> &'a Places
    ensures { result.now ≡ slice_index_or list.now place no_places }
{
    match list.get(place) {
        Some(places) => places,
        None => &nothing.places,
    }
}

fn named_at<'a>(out: &'a TraceOut, place: usize) -> &'a [u8]
    ensures { result.now ≡ slice_index_or out.now.regs place [] }
{
    match out.regs.as_slice().get(place) {
        Some(named) => named.as_slice(),
        None => &[],
    }
}

fn lines_at<'a>(out: &'a TraceOut, place: usize) -> &'a [Line]
    ensures { result.now ≡ slice_index_or out.now.lines place [] }
{
    match out.lines.as_slice().get(place) {
        Some(lines) => lines.as_slice(),
        None => &[],
    }
}

fn is_test(end: &Leave) -> bool
    ensures { result ≡ is_test end.now }
{
    match end {
        Leave::Branch { .. } | Leave::Nonzero { .. } => true,
        Leave::Jump { .. } | Leave::Return(_) | Leave::Trap(_) => false,
    }
}

fn last_edge(number: u32, end: &Leave) -> EdgeName
    ensures { result ≡ last_edge number end.now }
{
    match end {
        Leave::Jump { to, .. } => EdgeName::To(*to),
        Leave::Branch { .. } | Leave::Nonzero { .. } | Leave::Return(_) | Leave::Trap(_) => {
            EdgeName::To(number)
        }
    }
}

fn either_edge(number: u32, end: &Leave) -> EdgeName
    ensures { result ≡ either_edge number end.now }
{
    match end {
        Leave::Jump { to, .. } => EdgeName::Either(number, *to),
        Leave::Branch { .. } | Leave::Nonzero { .. } | Leave::Return(_) | Leave::Trap(_) => {
            EdgeName::To(number)
        }
    }
}

// Whether a test leads to a block with these predecessors.
fn is_tested(flow: &Flow, nothing: &Nothing, preds: &[u32]) -> bool
    ensures { result ≡ is_tested flow.now.nodes preds.now }
{
    match preds {
        [] => false,
        [first, ..] => is_test(&node_at(flow, nothing, *first).end),
    }
}

fn empty_edge(tested: bool, number: u32, end: &Leave) -> EdgeName
    ensures { result ≡ empty_edge tested number end.now }
{
    if tested {
        either_edge(number, end)
    } else {
        last_edge(number, end)
    }
}

fn first_edge(flow: &Flow, nothing: &Nothing, number: u32, lines: &[Line]) -> EdgeName
    ensures { result ≡ first_edge flow.now.nodes number lines.now }
{
    match lines {
        [] => {
            let node = node_at(flow, nothing, number);
            let tested = is_tested(flow, nothing, node.preds.as_slice());
            empty_edge(tested, number, &node.end)
        }
        [_, ..] => EdgeName::To(number),
    }
}

/// The block of a number, which has this place in its trace.
pub(crate) fn seat_of<'a>(
    shown: &ShownProcedure<'a>,
    nothing: &'a Nothing,
    trace: usize,
    place: usize,
    number: u32,
) -> Seat<'a>
    ensures seat { plain_seat result ≡ seat_of (plain_shown shown.now) trace place number }
    ensures node { result.node.now ≡ node_at shown.now.flow.now.nodes number }
{
    let node = node_at(shown.flow, nothing, number);
    let out = out_at(shown, nothing, trace);
    let lines = lines_at(out, place);
    Seat {
        block: number,
        node,
        start: places_at(out.starts.as_slice(), nothing, place),
        end: places_at(out.ends.as_slice(), nothing, place),
        named: named_at(out, place),
        first_edge: first_edge(shown.flow, nothing, number, lines),
        last_edge: last_edge(number, &node.end),
    }
}
