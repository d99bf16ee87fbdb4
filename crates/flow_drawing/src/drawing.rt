//! The drawing of a flow.

ghost use Rattle.std.specs.Prelude.{◌≡◌, ◌++◌, flat_map, slice_index_or, None, OnOk};
ghost use Rattle.block_runs.specs.Blocks.{successors};
ghost use Rattle.flow_drawing.specs.Boxes.{box_at};
ghost use Rattle.flow_drawing.specs.Drawings.{standing_at, edge_text, edges_from, greatest_freq, content_text, block_text, boxed, box_text, boxes_from, size_text, svg_text, role_text, head_text, graph_text, laid_text, drawing_text};

use crate::layout::{Corner, Layout, lay_out};
use crate::paths::leads_back;
use crate::standings::{Standing, standings_of};
use crate::texts::{
    heat, put_attribute, put_bar, put_group, put_link, put_name, put_outline, put_path, put_small,
};
use html_text::{put_number, put_text};
use lir_core::{Flow, Leave, Node, Trace};
use outside::Memory;
use std::alloc::{AllocError, Global};

/// What a box tells of its block: its number, its trace, how often it runs, and how wide the bar is that shows this.
#[derive(Clone, Copy)]
pub(crate) struct Block {
    pub(crate) number: usize,
    pub(crate) standing: Option<Standing>,
    pub(crate) freq: u64,
    pub(crate) heat: u64,
}

// The standing of a block.
fn standing_at(standings: &[Option<Standing>], block: usize) -> Option<Standing>
    ensures { result ≡ standing_at standings.now block }
{
    match standings.get(block) {
        Some(standing) => *standing,
        None => None,
    }
}

// The box of a block.
fn box_at(corners: &[Option<Corner>], block: usize) -> Option<Corner>
    ensures { result ≡ box_at corners.now block }
{
    match corners.get(block) {
        Some(corner) => *corner,
        None => None,
    }
}

// Appends an edge, if both its blocks have boxes.
fn put_edge(
    alloc: Global,
    text: &mut Vec<u8>,
    corners: &[Option<Corner>],
    standings: &[Option<Standing>],
    from: usize,
    to: u32,
) -> Result<(), AllocError>
    ensures { OnOk result (text.new.items ≡ text.old.items ++ edge_text corners.now standings.now from to) }
{
    let standing = standing_at(standings, from);
    match (box_at(corners, from), box_at(corners, to as usize)) {
        (Some(from_box), Some(to_box)) => put_path(
            alloc,
            text,
            leads_back(from_box, to_box),
            standing,
            to,
            from_box,
            to_box,
        ),
        _ => Ok(()),
    }
}

// Appends the edges of a block that ends so.
fn put_edges_of(
    alloc: Global,
    text: &mut Vec<u8>,
    corners: &[Option<Corner>],
    standings: &[Option<Standing>],
    from: usize,
    end: &Leave,
) -> Result<(), AllocError>
    ensures { OnOk result (text.new.items ≡ text.old.items ++ flat_map (edge_text corners.now standings.now from) (successors end.now)) }
{
    match end {
        Leave::Jump { to, .. } => put_edge(alloc, text, corners, standings, from, *to),
        Leave::Branch { yes, no, .. } | Leave::Nonzero { yes, no, .. } => {
            put_edge(alloc, text, corners, standings, from, *yes)?;
            put_edge(alloc, text, corners, standings, from, *no)
        }
        Leave::Return(_) | Leave::Trap(_) => Ok(()),
    }
}

// Appends all edges.
fn put_edges(
    alloc: Global,
    text: &mut Vec<u8>,
    corners: &[Option<Corner>],
    standings: &[Option<Standing>],
    nodes: &[Node],
) -> Result<(), AllocError>
    ensures { OnOk result (text.new.items ≡ text.old.items ++ edges_from corners.now standings.now 0 nodes.now) }
{
    for (number, node) in nodes.iter().enumerate() {
        put_edges_of(alloc, text, corners, standings, number, &node.end)?;
    }
    Ok(())
}

// How often the most frequent node runs.
fn greatest_freq(nodes: &[Node]) -> u64
    ensures { result ≡ greatest_freq nodes.now }
{
    let mut most = 0;
    for node in nodes {
        most = node.freq.max(most);
    }
    most
}

// Appends what is written into a box.
#[tactic(auto, unfolding(crate::specs::Drawings::content_text))]
fn put_content(
    alloc: Global,
    text: &mut Vec<u8>,
    block: Block,
    corner: Corner,
) -> Result<(), AllocError>
    ensures { OnOk result (text.new.items ≡ text.old.items ++ content_text block corner) }
{
    put_name(alloc, text, corner, block.number as u64)?;
    put_small(alloc, text, corner, block.standing, block.freq)?;
    put_bar(alloc, text, corner, block.heat)
}

// Appends a block's box.
#[tactic(auto, unfolding(crate::specs::Drawings::block_text))]
fn put_block(
    alloc: Global,
    text: &mut Vec<u8>,
    procedure: usize,
    block: Block,
    corner: Corner,
) -> Result<(), AllocError>
    ensures { OnOk result (text.new.items ≡ text.old.items ++ block_text procedure block corner) }
{
    put_link(alloc, text, procedure as u64, block.number as u64)?;
    put_group(alloc, text, block.standing)?;
    put_outline(alloc, text, corner)?;
    put_content(alloc, text, block, corner)?;
    put_text(text, b"</g></a>")
}

// Appends a block that has a box.
fn put_boxed(
    alloc: Global,
    text: &mut Vec<u8>,
    procedure: usize,
    block: Block,
    corner: Option<Corner>,
) -> Result<(), AllocError>
    ensures { OnOk result (text.new.items ≡ text.old.items ++ boxed procedure block corner) }
{
    match corner {
        Some(corner) => put_block(alloc, text, procedure, block, corner),
        None => Ok(()),
    }
}

// Appends the box of a node, if it has one.
fn put_box(
    alloc: Global,
    text: &mut Vec<u8>,
    procedure: usize,
    most: u64,
    corners: &[Option<Corner>],
    standings: &[Option<Standing>],
    number: usize,
    node: &Node,
) -> Result<(), AllocError>
    ensures { OnOk result (text.new.items ≡ text.old.items ++ box_text procedure most corners.now standings.now number node.now) }
{
    let block = Block {
        number,
        standing: standing_at(standings, number),
        freq: node.freq,
        heat: heat(most, node.freq),
    };
    put_boxed(alloc, text, procedure, block, box_at(corners, number))
}

// Appends the boxes of all blocks.
fn put_boxes(
    alloc: Global,
    text: &mut Vec<u8>,
    procedure: usize,
    most: u64,
    corners: &[Option<Corner>],
    standings: &[Option<Standing>],
    nodes: &[Node],
) -> Result<(), AllocError>
    ensures { OnOk result (text.new.items ≡ text.old.items ++ boxes_from procedure most corners.now standings.now 0 nodes.now) }
{
    for (number, node) in nodes.iter().enumerate() {
        put_box(
            alloc, text, procedure, most, corners, standings, number, node,
        )?;
    }
    Ok(())
}

// Appends the size of a drawing.
fn put_size(alloc: Global, text: &mut Vec<u8>, width: u64, height: u64) -> Result<(), AllocError>
    ensures { OnOk result (text.new.items ≡ text.old.items ++ size_text width height) }
{
    put_attribute(alloc, text, b"width", width)?;
    put_attribute(alloc, text, b"height", height)
}

// Appends the beginning of a drawing.
#[tactic(auto, unfolding(crate::specs::Drawings::svg_text))]
fn put_svg(text: &mut Vec<u8>) -> Result<(), AllocError>
    ensures { OnOk result (text.new.items ≡ text.old.items ++ svg_text) }
{
    put_text(text, b"<svg class=\"graph\" viewBox=\"0 0 ")
}

// Appends what a drawing is for readers who don't see it.
#[tactic(auto, unfolding(crate::specs::Drawings::role_text))]
fn put_role(text: &mut Vec<u8>) -> Result<(), AllocError>
    ensures { OnOk result (text.new.items ≡ text.old.items ++ role_text) }
{
    put_text(text, b" role=\"group\" aria-label=\"flow graph\">")
}

// Appends the beginning of a drawing of this size.
#[tactic(auto, unfolding(crate::specs::Drawings::head_text))]
fn put_head(alloc: Global, text: &mut Vec<u8>, width: u64, height: u64) -> Result<(), AllocError>
    ensures { OnOk result (text.new.items ≡ text.old.items ++ head_text width height) }
{
    put_svg(text)?;
    put_number(alloc, text, width)?;
    put_text(text, b" ")?;
    put_number(alloc, text, height)?;
    put_text(text, b"\"")?;
    put_size(alloc, text, width, height)?;
    put_role(text)
}

// Appends edges, and boxes over them.
#[tactic(auto, unfolding(crate::specs::Drawings::graph_text))]
fn put_graph(
    alloc: Global,
    text: &mut Vec<u8>,
    procedure: usize,
    nodes: &[Node],
    corners: &[Option<Corner>],
    standings: &[Option<Standing>],
) -> Result<(), AllocError>
    ensures { OnOk result (text.new.items ≡ text.old.items ++ graph_text procedure nodes.now corners.now standings.now) }
{
    put_edges(alloc, text, corners, standings, nodes)?;
    put_boxes(
        alloc,
        text,
        procedure,
        greatest_freq(nodes),
        corners,
        standings,
        nodes,
    )
}

// Appends the drawing of blocks that stand so.
#[tactic(auto, unfolding(crate::specs::Drawings::laid_text))]
fn put_laid(
    alloc: Global,
    text: &mut Vec<u8>,
    procedure: usize,
    nodes: &[Node],
    layout: &Layout,
    standings: &[Option<Standing>],
) -> Result<(), AllocError>
    ensures { OnOk result (text.new.items ≡ text.old.items ++ laid_text procedure layout.now.width layout.now.height nodes.now layout.now.corners.items standings.now) }
{
    put_head(alloc, text, layout.width, layout.height)?;
    put_graph(
        alloc,
        text,
        procedure,
        nodes,
        layout.corners.as_slice(),
        standings,
    )?;
    put_text(text, b"</svg>")
}

/// Appends the drawing of a flow with its traces, as that of the procedure of this number: blocks as boxes in layers, each with a
/// link to the row `pP-bB` of procedure P and block B, and edges, those within traces in their colours. The page has to have the
/// classes `graph`, `block`, `heat`, `small`, `edge`, `inside` and `back`, and the marker `a`. Takes time in proportion to the
/// blocks, the edges and the traces' blocks.
pub fn put_drawing(
    alloc: Global,
    text: &mut Vec<u8>,
    procedure: usize,
    flow: &Flow,
    traces: &[Trace],
) -> Result<(), Memory>
    ensures { OnOk result (text.new.items ≡ text.old.items ++ drawing_text procedure flow.now traces.now) }
{
    let nodes = flow.nodes.as_slice();
    let layout = lay_out(alloc, nodes)?;
    let standings = standings_of(alloc, nodes.len(), traces)?;
    put_laid(alloc, text, procedure, nodes, &layout, standings.as_slice())?;
    Ok(())
}
