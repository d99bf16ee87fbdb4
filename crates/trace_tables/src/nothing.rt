//! What stands for a node, places or a result that aren't there.

ghost use Rattle.std.specs.Prelude.{◌≡◌};
ghost use Rattle.lir_core.specs.Flows.{no_node};
ghost use Rattle.lir_core.specs.Sound.{no_places};
ghost use Rattle.boundary_resolve.specs.Placing.{no_out};

use lir_core::{Items, Leave, Node, Numbers, Places, TraceOut};
use std::alloc::Global;

/// A node that only returns, no places, and the result of no block.
#[derive(Drop)]
pub(crate) struct Nothing {
    pub(crate) node: Node,
    pub(crate) places: Places,
    pub(crate) out: TraceOut,
    ghost node_is: { node ≡ no_node },
    ghost places_are: { places ≡ no_places },
    ghost out_is: { out ≡ no_out },
}

impl Nothing {
    /// Takes no memory.
    pub(crate) fn new(alloc: Global) -> Nothing {
        Nothing {
            node: Node {
                params: Numbers::new(alloc),
                lirs: Items::new(alloc),
                end: Leave::Return(None),
                freq: 0,
                preds: Numbers::new(alloc),
                enter: None,
            },
            places: Places {
                regs: Items::new(alloc),
                homed: Items::new(alloc),
            },
            out: TraceOut {
                trace: 0,
                starts: Items::new(alloc),
                ends: Items::new(alloc),
                lines: Items::new(alloc),
                regs: Items::new(alloc),
            },
        }
    }
}
