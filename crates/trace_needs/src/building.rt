//! The calls that make the tables.

ghost use Rattle.std.specs.Prelude.{◌≡◌, ℕ, List, IfOk};
ghost use Rattle.lir_core.specs.Flows.{IsValidFlow};
ghost use Rattle.trace_needs.specs.Needs.{positions_of, next_need, last_mention};
ghost use Rattle.trace_needs.specs.Asked.{need_told, mention_told};

use crate::asking::{Mentions, Needs};
use crate::mentioning::pass_mentions;
use crate::needing::pass_needs;
use crate::rows::Rows;
use crate::table::Table;
use lir_core::{Flow, LiveSets, Trace};
use outside::Memory;
use std::alloc::Global;

/// What the positions of a trace of a flow need: the first that needs a value is what a search finds, where `live` has the
/// values that are live into each node. Takes time in proportion to the trace's operations and uses, and at each edge out of
/// the trace to the words of a row and the values that are live there, each times a logarithm.
pub fn needs(alloc: Global, flow: &Flow, trace: &Trace, live: &LiveSets) -> Result<Needs, Memory>
    ensures next_need { IsValidFlow flow.now → IfOk result (λ ns. (v at : ℕ) → need_told ns v at ≡ next_need (positions_of flow.now live.now trace.now.nodes) v at) }
{
    let nodes = trace.nodes.as_slice();
    let mut table = Table::new(alloc, room(flow, nodes))?;
    pass_needs(&mut table, flow, live, nodes)?;
    let Table { notes, .. } = table;
    let rows = Rows::of(alloc, notes)?;
    Ok(Needs { rows })
}

/// What the positions of a trace of a flow mention: the last that mentions a value is what a search finds, whatever is live.
/// Takes time in proportion to the trace's operations and uses, times a logarithm.
pub fn mentions(alloc: Global, flow: &Flow, trace: &Trace) -> Result<Mentions, Memory>
    ensures last_mention { IsValidFlow flow.now
        → IfOk result (λ ms. (rows : List (List ℕ)) (v before : ℕ)
        → mention_told ms v before ≡ last_mention (positions_of flow.now rows trace.now.nodes) v before) }
{
    mentions_along(alloc, flow, trace.nodes.as_slice())
}

/// What the positions of nodes mention, along these.
pub(crate) fn mentions_along(alloc: Global, flow: &Flow, nodes: &[u32]) -> Result<Mentions, Memory>
    ensures { IfOk result (λ ms. (rows : List (List ℕ)) (v before : ℕ)
        → mention_told ms v before ≡ last_mention (positions_of flow.now rows nodes.now) v before) }
{
    let mut table = Table::new(alloc, room(flow, nodes))?;
    pass_mentions(&mut table, flow, nodes)?;
    let Table { notes, .. } = table;
    let rows = Rows::of(alloc, notes)?;
    Ok(Mentions { rows })
}

// Room for what most traces of these nodes need or mention (measured): twice as many notes as there are positions.
fn room(flow: &Flow, nodes: &[u32]) -> usize {
    let mut count = 0usize;
    for number in nodes {
        if let Some(node) = flow.nodes.as_slice().get(*number as usize) {
            count = count.saturating_add(node.lirs.len()).saturating_add(2);
        }
    }
    count.saturating_mul(2)
}
