//! The hint of a trace.

ghost use Rattle.std.specs.Prelude.{◌≡◌, ◌<◌, length, slice_get, Some, IfSome};
ghost use Rattle.trace_needs.specs.Needs.{first_of};
ghost use Rattle.linear_scan.specs.Inputs.{lent};
ghost use Rattle.trace_work.specs.Places.{has_at, first_held, entering_by, hint_of_place, hint_by, if_row};
ghost use Rattle.trace_work.specs.Lent.{hints};
ghost use Rattle.trace_work.specs.Plans.{takes_hint};

use crate::places::place_of;
use alloc_choice::Used;
use lir_core::{Flow, Places, Trace, TraceOut};

/// A node, and its place in its trace.
#[derive(Clone, Copy)]
pub(crate) struct Entering {
    pub(crate) node: u32,
    pub(crate) place: usize,
}

/// The node behind which places stand, and the places.
#[derive(Clone, Copy)]
pub(crate) struct Hint<'a> {
    pub(crate) node: u32,
    pub(crate) places: &'a Places,
}

/// Whether a trace that is given places by this takes a hint.
pub(crate) fn takes_hint(by: Used) -> bool
    ensures { result ≡ takes_hint by }
{
    match by {
        Used::Trivial | Used::Linear => true,
        Used::Plain | Used::BottomUp => false,
    }
}

/// The hint that the result of the trace above gives to a trace of that head, if the places there have so many registers.
pub(crate) fn hint_from<'a>(
    flow: &Flow,
    places: &[usize],
    above: &Trace,
    out: &'a TraceOut,
    head: Option<u32>,
    regs: u8,
) -> Option<Hint<'a>>
    requires { 0 < regs }
    ensures hint { hints result ≡ if_row regs (hint_by flow.now.nodes places.now above.now out.now head) }
    ensures row { IfSome result (λ h. length h.places.now.regs ≡ regs) }
{
    let head = head?;
    let entering = entering_node(flow, places, above.nodes.as_slice(), head)?;
    hint_at(out, entering, regs)
}

fn hint_at(out: &TraceOut, at: Entering, regs: u8) -> Option<Hint<'_>>
    requires { 0 < regs }
    ensures hint { hints result ≡ if_row regs (hint_of_place out.now (Some at)) }
    ensures row { IfSome result (λ h. length h.places.now.regs ≡ regs) }
{
    match ends_at(out, at.place) {
        Some(places) => hint_of_row(at.node, places, regs),
        None => None,
    }
}

// The end places at a place of a result.
fn ends_at(out: &TraceOut, place: usize) -> Option<&Places>
    ensures { lent result ≡ slice_get out.now.ends place }
{
    out.ends.as_slice().get(place)
}

fn hint_of_row(node: u32, places: &Places, regs: u8) -> Option<Hint<'_>>
    ensures hint { hints result ≡ if_row regs (Some (record { node = node; places = places.now })) }
    ensures row { IfSome result (λ h. length h.places.now.regs ≡ regs) }
{
    if places.regs.len() == regs as usize {
        Some(Hint { node, places })
    } else {
        None
    }
}

/// The first of some nodes.
pub(crate) fn head_of(nodes: &[u32]) -> Option<u32>
    ensures { result ≡ first_of nodes.now }
{
    let head = nodes.first()?;
    Some(*head)
}

// The first of a head's predecessors that a trace of these nodes has.
fn entering_node(flow: &Flow, places: &[usize], parent: &[u32], head: u32) -> Option<Entering>
    ensures { result ≡ entering_by (slice_get flow.now.nodes head) places.now parent.now }
{
    match flow.nodes.as_slice().get(head as usize) {
        Some(node) => first_held(places, parent, node.preds.as_slice()),
        None => None,
    }
}

fn first_held(places: &[usize], parent: &[u32], nodes: &[u32]) -> Option<Entering>
    ensures { result ≡ first_held places.now parent.now nodes.now }
{
    for node in nodes {
        let place = place_of(places, *node);
        if has_at(parent, place, *node) {
            return Some(Entering { node: *node, place });
        }
    }
    None
}

fn has_at(nodes: &[u32], place: usize, node: u32) -> bool
    ensures { result ≡ has_at nodes.now place node }
{
    match nodes.get(place) {
        Some(other) => *other == node,
        None => false,
    }
}
