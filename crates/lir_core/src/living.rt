//! What is live into a node, value by value.

ghost use Rattle.lir_core.specs.Rows.{IsNextLive};

use crate::live_sets::LiveSets;

/// The lowest value from `from` on, of so many, that is live into a node. Takes no memory; to go through a row takes time
/// in proportion to its words and its values.
pub fn next_live(live: &LiveSets, node: u32, from: u32, values: u32) -> Option<u32>
    ensures { IsNextLive values live.now node from result }
{
    match live.next_live(node, from) {
        Some(value) if value < values => Some(value),
        _ => None,
    }
}
