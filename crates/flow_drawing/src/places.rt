//! The layers and columns of blocks.

ghost use Rattle.std.specs.Prelude.{◌≡◌, ◌+◌, ◌<◌, ◌≤◌, length, filter, slice_index_or, slice_set, Some, None, IfOk, OnOk};
ghost use Rattle.lir_core.specs.Flows.{node_at};
ghost use Rattle.flow_drawing.specs.Order.{leads_into, entries, order_of};
ghost use Rattle.flow_drawing.specs.Layout.{place_at, below, layer_of, next_in, settle, settle_all, places_of, depth_of, widths_of, counted};

use crate::order::leads_into;
use lir_core::Node;
use outside::Memory;
use std::alloc::Global;

/// Where a block stands: its layer, and how many of the layer stand left of it.
#[derive(Clone, Copy)]
pub(crate) struct Place {
    pub(crate) layer: u32,
    pub(crate) column: u32,
}

/// The places of blocks, and how many blocks each layer has.
#[derive(Drop)]
pub(crate) struct Places {
    pub(crate) places: Vec<Option<Place>>,
    pub(crate) widths: Vec<u32>,
}

// One number more.
fn next(number: u32) -> Result<u32, Memory>
    ensures { IfOk result (λ n. n ≡ number + 1) }
{
    number.checked_add(1).ok_or(Memory)
}

// The place of a block.
fn place_at(places: &[Option<Place>], block: usize) -> Option<Place>
    ensures { result ≡ place_at places.now block }
{
    match places.get(block) {
        Some(place) => *place,
        None => None,
    }
}

// The layer below a place.
fn below(place: Option<Place>) -> Result<u32, Memory>
    ensures { IfOk result (λ layer. layer ≡ below place) }
{
    match place {
        Some(place) => next(place.layer),
        None => Ok(0),
    }
}

// The layer below all of some blocks.
fn layer_of(places: &[Option<Place>], blocks: &[u32]) -> Result<u32, Memory>
    ensures { IfOk result (λ layer. layer ≡ layer_of places.now blocks.now) }
{
    let mut lowest = 0;
    for block in blocks {
        lowest = below(place_at(places, *block as usize))?.max(lowest);
    }
    Ok(lowest)
}

// The layer of a block of this number.
fn layer_at(nodes: &[Node], places: &[Option<Place>], block: usize) -> Result<u32, Memory>
    ensures { IfOk result (λ layer. layer ≡ layer_of places.now (node_at nodes.now block).preds) }
{
    match nodes.get(block) {
        Some(node) => layer_of(places, node.preds.as_slice()),
        None => Ok(0),
    }
}

/// How many blocks a layer has.
pub(crate) fn width_at(widths: &[u32], layer: u32) -> u32
    ensures { result ≡ slice_index_or widths.now layer 0 }
{
    match widths.get(layer as usize) {
        Some(width) => *width,
        None => 0,
    }
}

// Counts a block more in a layer.
fn count(widths: &mut Vec<u32>, layer: u32) -> Result<(), Memory>
    ensures { OnOk result (widths.new.items ≡ counted widths.old.items layer) }
{
    let at = layer as usize;
    if at < widths.len() {
        widths[at] = next(widths[at])?;
    } else {
        widths.push(1)?;
    }
    Ok(())
}

// A block gets the next place in this layer.
fn put_in(all: &mut Places, block: usize, layer: u32) -> Result<(), Memory>
    requires counted { all.old.widths.items ≡ widths_of all.old.places.items }
    requires low { layer ≤ depth_of all.old.places.items }
    requires block { block < length all.old.places.items }
    requires free { place_at all.old.places.items block ≡ None }
    ensures places { OnOk result (all.new.places.items ≡ slice_set all.old.places.items block (Some (next_in all.old.places.items layer))) }
    ensures counted { OnOk result (all.new.widths.items ≡ widths_of all.new.places.items) }
{
    let column = width_at(all.widths.as_slice(), layer);
    count(&mut all.widths, layer)?;
    all.places[block] = Some(Place { layer, column });
    Ok(())
}

// The turn of a block.
fn settle(nodes: &[Node], all: &mut Places, block: usize) -> Result<(), Memory>
    requires { all.old.widths.items ≡ widths_of all.old.places.items }
    ensures places { OnOk result (all.new.places.items ≡ settle nodes.now all.old.places.items block) }
    ensures counted { OnOk result (all.new.widths.items ≡ widths_of all.new.places.items) }
{
    let is_free = place_at(all.places.as_slice(), block).is_none();
    if is_free && block < all.places.len() {
        let layer = layer_at(nodes, all.places.as_slice(), block)?;
        put_in(all, block, layer)?;
    }
    Ok(())
}

// The turns of those of some blocks that lead into one.
fn settle_leading(
    nodes: &[Node],
    all: &mut Places,
    target: usize,
    blocks: &[u32],
) -> Result<(), Memory>
    requires { all.old.widths.items ≡ widths_of all.old.places.items }
    ensures places { OnOk result (all.new.places.items ≡ settle_all nodes.now all.old.places.items (filter (leads_into nodes.now target) blocks.now)) }
    ensures counted { OnOk result (all.new.widths.items ≡ widths_of all.new.places.items) }
{
    for block in blocks {
        if leads_into(nodes, target, *block) {
            settle(nodes, all, *block as usize)?;
        }
    }
    Ok(())
}

// The turns of the predecessors that lead into a block.
fn settle_entries(
    nodes: &[Node],
    all: &mut Places,
    target: usize,
    preds: &[u32],
) -> Result<(), Memory>
    requires { all.old.widths.items ≡ widths_of all.old.places.items }
    ensures places { OnOk result (all.new.places.items ≡ settle_all nodes.now all.old.places.items (entries nodes.now target preds.now)) }
    ensures counted { OnOk result (all.new.widths.items ≡ widths_of all.new.places.items) }
{
    if preds.len() >= 2 {
        settle_leading(nodes, all, target, preds)?;
    }
    Ok(())
}

// The turns of all blocks.
fn settle_all(nodes: &[Node], all: &mut Places) -> Result<(), Memory>
    requires { all.old.widths.items ≡ widths_of all.old.places.items }
    ensures places { OnOk result (all.new.places.items ≡ settle_all nodes.now all.old.places.items (order_of nodes.now)) }
    ensures counted { OnOk result (all.new.widths.items ≡ widths_of all.new.places.items) }
{
    for (number, node) in nodes.iter().enumerate() {
        settle_entries(nodes, all, number, node.preds.as_slice())?;
        settle(nodes, all, number)?;
    }
    Ok(())
}

/// The places of all blocks. Takes time in proportion to blocks and edges.
pub(crate) fn places_of(alloc: Global, nodes: &[Node]) -> Result<Places, Memory>
    ensures places { IfOk result (λ all. all.places.items ≡ places_of nodes.now) }
    ensures widths { IfOk result (λ all. all.widths.items ≡ widths_of (places_of nodes.now)) }
{
    let mut all = Places {
        places: vec![in alloc; None; nodes.len()]?,
        widths: Vec::new(alloc),
    };
    settle_all(nodes, &mut all)?;
    Ok(all)
}
