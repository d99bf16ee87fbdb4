//! The parts of a drawing as SVG.

ghost use Rattle.std.specs.Prelude.{◌≡◌, ◌++◌, OnOk};
ghost use Rattle.flow_drawing.specs.Texts.{attribute, place_text, hue, hue_text, hundredths_text, times_text, heat, is_next, inside_text, back_text, arrow_text, path_text, link_text, group_text, box_size_text, outline_text, name_text, trace_text, small_text, bar_text};

use crate::layout::Corner;
use crate::paths::put_curve;
use crate::standings::Standing;
use html_text::{put_number, put_text};
use std::alloc::{AllocError, Global};

/// How often the entry of a procedure is taken to run.
const ONCE: u64 = 1048576;

/// Appends an attribute with a number.
#[tactic(auto, unfolding(crate::specs::Texts::attribute))]
pub(crate) fn put_attribute(
    alloc: Global,
    text: &mut Vec<u8>,
    name: &[u8],
    number: u64,
) -> Result<(), AllocError>
    ensures { OnOk result (text.new.items ≡ text.old.items ++ attribute name.now number) }
{
    put_text(text, b" ")?;
    put_text(text, name)?;
    put_text(text, b"=\"")?;
    put_number(alloc, text, number)?;
    put_text(text, b"\"")
}

// Appends where something stands.
fn put_place(alloc: Global, text: &mut Vec<u8>, x: u64, y: u64) -> Result<(), AllocError>
    ensures { OnOk result (text.new.items ≡ text.old.items ++ place_text x y) }
{
    put_attribute(alloc, text, b"x", x)?;
    put_attribute(alloc, text, b"y", y)
}

/// The hue of a trace.
pub fn hue(trace: usize) -> u64
    ensures { result ≡ hue trace }
{
    const HUES: [u64; 10] = [211, 32, 152, 340, 268, 96, 12, 186, 300, 54];
    HUES[trace % 10]
}

// Appends the colour of a trace, behind a class.
fn put_hue(alloc: Global, text: &mut Vec<u8>, trace: usize) -> Result<(), AllocError>
    ensures { OnOk result (text.new.items ≡ text.old.items ++ hue_text trace) }
{
    put_text(text, b"\" style=\"--h:")?;
    put_number(alloc, text, hue(trace))
}

// Appends hundredths, of which there are fewer than a hundred.
fn put_hundredths(alloc: Global, text: &mut Vec<u8>, number: u64) -> Result<(), AllocError>
    ensures { OnOk result (text.new.items ≡ text.old.items ++ hundredths_text number) }
{
    put_text(text, b"0.")?;
    put_number(alloc, text, number / 10)?;
    put_number(alloc, text, number % 10)
}

/// Appends how often a block runs, relative to the entry.
pub fn put_times(alloc: Global, text: &mut Vec<u8>, freq: u64) -> Result<(), AllocError>
    ensures { OnOk result (text.new.items ≡ text.old.items ++ times_text freq) }
{
    if freq < ONCE {
        put_hundredths(alloc, text, freq * 100 / ONCE)
    } else {
        put_number(alloc, text, freq / ONCE)
    }
}

/// The width of the bar of a block, where the most frequent one runs so often.
pub(crate) fn heat(most: u64, freq: u64) -> u64
    ensures { result ≡ heat most freq }
{
    let width = u128::from(freq) * 104 / u128::from(most.max(1));
    width.min(104) as u64
}

// Whether a block is the next of a trace.
fn is_next(next: Option<u32>, to: u32) -> bool
    ensures { result ≡ is_next next to }
{
    match next {
        Some(block) => block == to,
        None => false,
    }
}

// Appends the colour of an edge within a trace.
fn put_inside(
    alloc: Global,
    text: &mut Vec<u8>,
    standing: Option<Standing>,
    to: u32,
) -> Result<(), AllocError>
    ensures { OnOk result (text.new.items ≡ text.old.items ++ inside_text standing to) }
{
    match standing {
        Some(standing) if is_next(standing.next, to) => {
            put_text(text, b" inside")?;
            put_hue(alloc, text, standing.trace)
        }
        _ => Ok(()),
    }
}

// Appends that an edge leads back.
fn put_back(text: &mut Vec<u8>, is_back: bool) -> Result<(), AllocError>
    ensures { OnOk result (text.new.items ≡ text.old.items ++ back_text is_back) }
{
    if is_back {
        put_text(text, b" back")
    } else {
        Ok(())
    }
}

// Appends the end of an edge.
#[tactic(auto, unfolding(crate::specs::Texts::arrow_text))]
fn put_arrow(text: &mut Vec<u8>) -> Result<(), AllocError>
    ensures { OnOk result (text.new.items ≡ text.old.items ++ arrow_text) }
{
    put_text(text, b"\" marker-end=\"url(#a)\"/>")
}

/// Appends an edge between two boxes.
#[tactic(auto, unfolding(crate::specs::Texts::path_text))]
pub(crate) fn put_path(
    alloc: Global,
    text: &mut Vec<u8>,
    is_back: bool,
    standing: Option<Standing>,
    to: u32,
    from_box: Corner,
    to_box: Corner,
) -> Result<(), AllocError>
    ensures { OnOk result (text.new.items ≡ text.old.items ++ path_text is_back standing to from_box to_box) }
{
    put_text(text, b"<path class=\"edge")?;
    put_back(text, is_back)?;
    put_inside(alloc, text, standing, to)?;
    put_text(text, b"\" d=\"")?;
    put_curve(alloc, text, is_back, from_box, to_box)?;
    put_arrow(text)
}

/// Appends the link to a block's row.
#[tactic(auto, unfolding(crate::specs::Texts::link_text))]
pub(crate) fn put_link(
    alloc: Global,
    text: &mut Vec<u8>,
    procedure: u64,
    block: u64,
) -> Result<(), AllocError>
    ensures { OnOk result (text.new.items ≡ text.old.items ++ link_text procedure block) }
{
    put_text(text, b"<a href=\"#p")?;
    put_number(alloc, text, procedure)?;
    put_text(text, b"-b")?;
    put_number(alloc, text, block)?;
    put_text(text, b"\"><g class=\"block")
}

/// Appends the colour of a block.
pub(crate) fn put_group(
    alloc: Global,
    text: &mut Vec<u8>,
    standing: Option<Standing>,
) -> Result<(), AllocError>
    ensures { OnOk result (text.new.items ≡ text.old.items ++ group_text standing) }
{
    if let Some(standing) = standing {
        put_hue(alloc, text, standing.trace)?;
    }
    put_text(text, b"\">")
}

// Appends the size of a box, and its end.
#[tactic(auto, unfolding(crate::specs::Texts::box_size_text))]
fn put_box_size(text: &mut Vec<u8>) -> Result<(), AllocError>
    ensures { OnOk result (text.new.items ≡ text.old.items ++ box_size_text) }
{
    put_text(text, b" width=\"116\" height=\"46\" rx=\"6\"/>")
}

/// Appends a box.
#[tactic(auto, unfolding(crate::specs::Texts::outline_text))]
pub(crate) fn put_outline(
    alloc: Global,
    text: &mut Vec<u8>,
    corner: Corner,
) -> Result<(), AllocError>
    ensures { OnOk result (text.new.items ≡ text.old.items ++ outline_text corner) }
{
    put_text(text, b"<rect")?;
    put_place(alloc, text, u64::from(corner.x), u64::from(corner.y))?;
    put_box_size(text)
}

/// Appends the number of a block, in its box.
#[tactic(auto, unfolding(crate::specs::Texts::name_text))]
pub(crate) fn put_name(
    alloc: Global,
    text: &mut Vec<u8>,
    corner: Corner,
    block: u64,
) -> Result<(), AllocError>
    ensures { OnOk result (text.new.items ≡ text.old.items ++ name_text corner block) }
{
    put_text(text, b"<text")?;
    put_place(
        alloc,
        text,
        u64::from(corner.x) + 58,
        u64::from(corner.y) + 19,
    )?;
    put_text(text, b">block ")?;
    put_number(alloc, text, block)?;
    put_text(text, b"</text>")
}

// Appends the number of a trace.
fn put_trace(
    alloc: Global,
    text: &mut Vec<u8>,
    standing: Option<Standing>,
) -> Result<(), AllocError>
    ensures { OnOk result (text.new.items ≡ text.old.items ++ trace_text standing) }
{
    match standing {
        Some(standing) => {
            put_text(text, b"trace ")?;
            put_number(alloc, text, standing.trace as u64)
        }
        None => put_text(text, b"no trace"),
    }
}

/// Appends the trace of a block and how often it runs, in its box.
#[tactic(auto, unfolding(crate::specs::Texts::small_text))]
pub(crate) fn put_small(
    alloc: Global,
    text: &mut Vec<u8>,
    corner: Corner,
    standing: Option<Standing>,
    freq: u64,
) -> Result<(), AllocError>
    ensures { OnOk result (text.new.items ≡ text.old.items ++ small_text corner standing freq) }
{
    put_text(text, b"<text class=\"small\"")?;
    put_place(
        alloc,
        text,
        u64::from(corner.x) + 58,
        u64::from(corner.y) + 35,
    )?;
    put_text(text, b">")?;
    put_trace(alloc, text, standing)?;
    put_text(text, b" &#183; ")?;
    put_times(alloc, text, freq)?;
    put_text(text, b"&#215;</text>")
}

/// Appends a bar of this width, in a box.
#[tactic(auto, unfolding(crate::specs::Texts::bar_text))]
pub(crate) fn put_bar(
    alloc: Global,
    text: &mut Vec<u8>,
    corner: Corner,
    width: u64,
) -> Result<(), AllocError>
    ensures { OnOk result (text.new.items ≡ text.old.items ++ bar_text corner width) }
{
    put_text(text, b"<rect class=\"heat\"")?;
    put_place(
        alloc,
        text,
        u64::from(corner.x) + 6,
        u64::from(corner.y) + 40,
    )?;
    put_attribute(alloc, text, b"width", width)?;
    put_text(text, b" height=\"3\"/>")
}
