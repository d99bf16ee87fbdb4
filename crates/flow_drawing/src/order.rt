//! The order in which blocks are drawn.

ghost use Rattle.std.specs.Prelude.{◌≡◌, ◌==◌, nat_lt};
ghost use Rattle.block_runs.specs.Blocks.{successors};
ghost use Rattle.flow_drawing.specs.Order.{is_one, is_on_edge, leads_into};

use lir_core::{Leave, Node};

// Whether there is one predecessor, of a smaller number than the target.
fn comes_from_before(preds: &[u32], target: usize) -> bool
    ensures { result ≡ is_one (λ pred. nat_lt pred target) preds.now }
{
    match preds {
        [pred] => (*pred as usize) < target,
        _ => false,
    }
}

// Whether a block leads only to the target.
fn leads_only_to(end: &Leave, target: usize) -> bool
    ensures { result ≡ is_one (λ next. next == target) (successors end.now) }
{
    match end {
        Leave::Jump { to, .. } => *to as usize == target,
        _ => false,
    }
}

// Whether a block stands on an edge to the target.
fn is_on_edge(node: &Node, target: usize) -> bool
    ensures { result ≡ is_on_edge target node.now }
{
    comes_from_before(node.preds.as_slice(), target) && leads_only_to(&node.end, target)
}

/// Whether a block leads into one of a smaller number.
pub(crate) fn leads_into(nodes: &[Node], target: usize, block: u32) -> bool
    ensures { result ≡ leads_into nodes.now target block }
{
    match nodes.get(block as usize) {
        Some(node) => target < block as usize && is_on_edge(node, target),
        None => false,
    }
}
