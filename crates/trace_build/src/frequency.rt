//! Which node is taken first.

ghost use Rattle.std.specs.Prelude.{◌≡◌, IfSome, Some, true};
ghost use Rattle.lir_core.specs.Flows.{node_at};
ghost use Rattle.trace_build.specs.Traces.{is_in, is_before, first_of, may_enter, unassigned, most_frequent};

use lir_core::Node;

/// Of some nodes the most frequent that is unassigned, the lowest-numbered of these; where a loop is entered, only the
/// node that enters it.
pub(crate) fn most_frequent(
    nodes: &[Node],
    free: &[bool],
    enter: Option<u32>,
    candidates: &[u32],
) -> Option<u32>
    ensures first { result ≡ most_frequent nodes.now (unassigned free.now enter candidates.now) }
    ensures free { IfSome result (λ n. is_in free.now n ≡ true) }
{
    let mut first = None;
    for candidate in candidates {
        if is_free(free, *candidate) && may_enter(enter, *candidate) {
            first = Some(first_of(nodes, first, *candidate));
        }
    }
    first
}

// Of two nodes the one that is taken before.
fn first_of(nodes: &[Node], first: Option<u32>, node: u32) -> u32
    ensures { Some result ≡ first_of nodes.now first node }
{
    match first {
        Some(first) if is_before(nodes, first, node) => first,
        _ => node,
    }
}

// Whether a node is taken before another.
fn is_before(nodes: &[Node], a: u32, b: u32) -> bool
    ensures { result ≡ is_before nodes.now a b }
{
    let (of_a, of_b) = (frequency(nodes, a), frequency(nodes, b));
    of_b < of_a || (of_a == of_b && a <= b)
}

fn frequency(nodes: &[Node], node: u32) -> u64
    ensures { result ≡ (node_at nodes.now node).freq }
{
    match nodes.get(node as usize) {
        Some(node) => node.freq,
        None => 0,
    }
}

/// Whether a node is unassigned.
pub(crate) fn is_free(free: &[bool], node: u32) -> bool
    ensures { result ≡ is_in free.now node }
{
    match free.get(node as usize) {
        Some(free) => *free,
        None => false,
    }
}

fn may_enter(enter: Option<u32>, node: u32) -> bool
    ensures { result ≡ may_enter enter node }
{
    match enter {
        Some(enter) => node == enter,
        None => true,
    }
}
