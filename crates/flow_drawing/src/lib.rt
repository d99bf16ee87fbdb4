//! The flow graph of a procedure as a drawing in SVG, for a page that has the styles and the head of arrows.
//!
//! Blocks come in the order of their numbers, but those on edges to a block just before it (`specs/Order.antt`). Each stands in the
//! layer below its predecessors that came before it, right of those that are in the layer, and layers stand in the middle of the
//! drawing (`specs/Layout.antt`). Each block is a box with its number, its trace, how often it runs, and a link to its row in the
//! page's tables. Edges within a trace have the trace's colour. Edges that don't lead down are led back, up left of all boxes
//! (`specs/Paths.antt`). `put_drawing` appends the text, which `specs/Drawings.antt` defines. Each block has a box, boxes lie apart
//! and within the drawing, and each edge leads from its block's box to its target's, down or round the left side
//! (`blocks_stand_below`, `boxes_lie_apart`, `edges_meet_boxes`).
//!
//! `hue` and `put_times` are also for what else a page tells of traces: their colours, and how often blocks run.
#![tactic(auto)]

mod drawing;
mod laws;
mod layout;
mod order;
mod paths;
mod places;
mod standings;
mod texts;

pub use drawing::put_drawing;
pub use laws::{blocks_stand_below, boxes_lie_apart, edges_meet_boxes};
pub use texts::{hue, put_times};
