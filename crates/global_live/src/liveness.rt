//! The call.

ghost use Rattle.std.specs.Prelude.{◌<◌, ◌^◌, length, IfOk, OnOk};
ghost use Rattle.lir_core.specs.Flows.{IsValidFlow};
ghost use Rattle.global_live.specs.Reading.{HasLive};
ghost use Rattle.global_live.specs.Search.{marks_of, Fills};

use crate::makers::makers;
use crate::rows::Rows;
use crate::search::Search;
use lir_core::{Flow, LiveSets};
use outside::Memory;
use std::alloc::Global;

/// The values that are live into each node: those that are read on a path from its start on before they are made. An
/// argument of a jump is read, a parameter is made at its node's start. Takes nodes times values in bits, and time in
/// proportion to that and to the edges into the nodes, each as often as values are live there.
pub fn live(alloc: Global, flow: &Flow) -> Result<LiveSets, Memory>
    ensures { IsValidFlow flow.now → IfOk result (HasLive flow.now) }
{
    let nodes = flow.nodes.len();
    if u32::try_from(nodes).is_err() {
        return Err(Memory);
    }
    let makers = makers(alloc, flow)?;
    let rows = Rows::new(alloc, nodes, flow.values as usize / 64 + 1)?;
    let mut search = Search {
        rows,
        pending: Vec::new(alloc),
    };
    follow_nodes(&mut search, flow, makers.as_slice())?;
    let Search { rows, pending: _ } = search;
    Ok(rows.into_live_sets())
}

// Follows what each node reads.
fn follow_nodes(search: &mut Search, flow: &Flow, makers: &[u32]) -> Result<(), Memory>
    requires { length flow.now.nodes < 2 ^ 32 }
    ensures { OnOk result (Fills flow.now makers.now (length flow.now.nodes) (marks_of search.old) (marks_of search.new)) }
{
    for (number, node) in flow.nodes.as_slice().iter().enumerate() {
        search.follow_operations(flow, makers, number as u32, node.lirs.as_slice())?;
        search.follow_end(flow, makers, number as u32, &node.end)?;
    }
    Ok(())
}
