//! The boxes of blocks, and the size of the drawing.

ghost use Rattle.std.specs.Prelude.{◌≡◌, slice_index_or, option_map, IfOk};
ghost use Rattle.flow_drawing.specs.Layout.{places_of, widths_of, widest, corner_at, corner_of, corners_of, drawing_width, drawing_height};

use crate::places::{Place, places_of, width_at};
use lir_core::Node;
use outside::Memory;
use std::alloc::Global;

/// The upper left corner of a block's box.
#[derive(Clone, Copy)]
pub(crate) struct Corner {
    pub(crate) x: u32,
    pub(crate) y: u32,
}

/// The corners of all boxes, and how large the drawing is.
#[derive(Drop)]
pub(crate) struct Layout {
    pub(crate) corners: Vec<Option<Corner>>,
    pub(crate) width: u64,
    pub(crate) height: u64,
}

// A number in fewer bits.
fn short(number: u64) -> Result<u32, Memory>
    ensures { IfOk result (λ n. n ≡ number) }
{
    u32::try_from(number).map_err(|_| Memory)
}

// How many blocks the widest layer has.
fn widest(widths: &[u32]) -> u32
    ensures { result ≡ widest widths.now }
{
    let mut widest = 0;
    for width in widths {
        widest = (*width).max(widest);
    }
    widest
}

// The corner of a box in a layer of this width.
fn corner_at(widest: u32, width: u32, column: u32, layer: u32) -> Result<Corner, Memory>
    ensures { IfOk result (λ corner. corner ≡ corner_at widest width column layer) }
{
    let x = 46 + 70 * u64::from(widest.saturating_sub(width)) + 140 * u64::from(column);
    let y = 28 + 82 * u64::from(layer);
    Ok(Corner {
        x: short(x)?,
        y: short(y)?,
    })
}

// The corner of the box of a block, if it has a place.
fn corner_of(widths: &[u32], most: u32, place: Option<Place>) -> Result<Option<Corner>, Memory>
    requires { most ≡ widest widths.now }
    ensures { IfOk result (λ corner. corner ≡ option_map (corner_of widths.now) place) }
{
    match place {
        Some(place) => {
            let width = width_at(widths, place.layer);
            let corner = corner_at(most, width, place.column, place.layer)?;
            Ok(Some(corner))
        }
        None => Ok(None),
    }
}

// The corners of all boxes.
fn corners_of(
    alloc: Global,
    places: &[Option<Place>],
    widths: &[u32],
) -> Result<Vec<Option<Corner>>, Memory>
    requires { widths.now ≡ widths_of places.now }
    ensures { IfOk result (λ corners. corners.items ≡ corners_of places.now) }
{
    let widest = widest(widths);
    let mut corners = Vec::with_capacity(alloc, places.len())?;
    for place in places {
        corners.push(corner_of(widths, widest, *place)?)?;
    }
    Ok(corners)
}

/// Where the blocks of a flow stand. Takes time in proportion to blocks and edges.
pub(crate) fn lay_out(alloc: Global, nodes: &[Node]) -> Result<Layout, Memory>
    ensures corners { IfOk result (λ layout. layout.corners.items ≡ corners_of (places_of nodes.now)) }
    ensures width { IfOk result (λ layout. layout.width ≡ drawing_width (widths_of (places_of nodes.now))) }
    ensures height { IfOk result (λ layout. layout.height ≡ drawing_height (widths_of (places_of nodes.now))) }
{
    let all = places_of(alloc, nodes)?;
    let corners = corners_of(alloc, all.places.as_slice(), all.widths.as_slice())?;
    let depth = short(all.widths.len() as u64)?;
    Ok(Layout {
        corners,
        width: 68 + 140 * u64::from(widest(all.widths.as_slice())),
        height: 28 + 82 * u64::from(depth),
    })
}
