//! The lines of edges.

ghost use Rattle.std.specs.Prelude.{◌≡◌, ◌++◌, OnOk};
ghost use Rattle.flow_drawing.specs.Paths.{leads_back, middle, forward, lane, backward, curve_of, point_text, points_text, curve_text, Curve};

use crate::layout::Corner;
use html_text::{put_number, put_text};
use std::alloc::{AllocError, Global};

/// A place in a drawing.
#[derive(Clone, Copy)]
pub(crate) struct Point {
    pub(crate) x: u64,
    pub(crate) y: u64,
}

// Appends a point.
fn put_point(alloc: Global, text: &mut Vec<u8>, point: Point) -> Result<(), AllocError>
    ensures { OnOk result (text.new.items ≡ text.old.items ++ point_text point) }
{
    put_text(text, b" ")?;
    put_number(alloc, text, point.x)?;
    put_text(text, b" ")?;
    put_number(alloc, text, point.y)
}

// Appends points.
fn put_points(alloc: Global, text: &mut Vec<u8>, points: &[Point]) -> Result<(), AllocError>
    ensures { OnOk result (text.new.items ≡ text.old.items ++ points_text points.now) }
{
    for point in points {
        put_point(alloc, text, *point)?;
    }
    Ok(())
}

// Appends a line from a point to another, which bends towards those between them.
#[tactic(auto, unfolding(crate::specs::Paths::curve_text))]
fn put_line(
    alloc: Global,
    text: &mut Vec<u8>,
    start: Point,
    between: &[Point],
    end: Point,
) -> Result<(), AllocError>
    ensures { OnOk result (text.new.items ≡ text.old.items ++ curve_text (record { start = start; between = between.now; end = end })) }
{
    put_text(text, b"M")?;
    put_point(alloc, text, start)?;
    put_text(text, b" C")?;
    put_points(alloc, text, between)?;
    put_point(alloc, text, end)
}

/// Whether an edge leads back.
pub(crate) fn leads_back(from: Corner, to: Corner) -> bool
    ensures { result ≡ leads_back from to }
{
    to.y <= from.y
}

// Half way between two boxes.
fn middle(from: Corner, to: Corner) -> u64
    ensures { result ≡ middle from to }
{
    (u64::from(from.y) + 46 + u64::from(to.y)) / 2
}

// Appends the line of an edge down.
fn put_forward(
    alloc: Global,
    text: &mut Vec<u8>,
    from: Corner,
    to: Corner,
) -> Result<(), AllocError>
    ensures { OnOk result (text.new.items ≡ text.old.items ++ curve_text (forward from to)) }
{
    let (left, right) = (u64::from(from.x) + 58, u64::from(to.x) + 58);
    let (upper, lower) = (u64::from(from.y) + 46, u64::from(to.y));
    let y = middle(from, to);
    put_line(
        alloc,
        text,
        Point { x: left, y: upper },
        &[Point { x: left, y }, Point { x: right, y }],
        Point { x: right, y: lower },
    )
}

// Where an edge back to a box leads up.
fn lane(to: Corner) -> u64
    ensures { result ≡ lane to }
{
    6 + 10 * (u64::from(to.y) / 82 % 4)
}

// Appends the line of an edge back.
fn put_backward(
    alloc: Global,
    text: &mut Vec<u8>,
    from: Corner,
    to: Corner,
) -> Result<(), AllocError>
    ensures { OnOk result (text.new.items ≡ text.old.items ++ curve_text (backward from to)) }
{
    let (start, left, end) = (u64::from(from.x) + 38, lane(to), u64::from(to.x) + 24);
    let (lower, upper) = (u64::from(from.y) + 46, u64::from(to.y));
    let (under, over) = (u64::from(from.y) + 72, upper.saturating_sub(26));
    let between = [
        Point { x: start, y: under },
        Point { x: left, y: under },
        Point { x: left, y: lower },
        Point { x: left, y: lower },
        Point { x: left, y: upper },
        Point { x: left, y: upper },
        Point { x: left, y: over },
        Point { x: end, y: over },
    ];
    put_line(
        alloc,
        text,
        Point { x: start, y: lower },
        &between,
        Point { x: end, y: upper },
    )
}

/// Appends the line of an edge between two boxes.
pub(crate) fn put_curve(
    alloc: Global,
    text: &mut Vec<u8>,
    is_back: bool,
    from: Corner,
    to: Corner,
) -> Result<(), AllocError>
    ensures { OnOk result (text.new.items ≡ text.old.items ++ curve_text (curve_of is_back from to)) }
{
    if is_back {
        put_backward(alloc, text, from, to)
    } else {
        put_forward(alloc, text, from, to)
    }
}
