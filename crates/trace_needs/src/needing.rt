//! What the positions of a trace need.

ghost use Rattle.std.specs.Prelude.{◌≡◌, ◌+◌, [], cond, map, Some, None, OnOk, slice_get};
ghost use Rattle.block_runs.specs.Blocks.{successors};
ghost use Rattle.lir_core.specs.Rows.{live_into};
ghost use Rattle.trace_needs.specs.Needs.{live_off, is_next, at_operation, at_end, in_node, positions_of};
ghost use Rattle.trace_needs.specs.Tables.{needed, passed, passed_all, noted_all, with_notes};

use crate::table::Table;
use lir_core::{Flow, Leave, Lir, LiveSets, Node};
use outside::Memory;

/// Passes the nodes of a trace, and notes what they need.
pub(crate) fn pass_needs(
    table: &mut Table,
    flow: &Flow,
    live: &LiveSets,
    nodes: &[u32],
) -> Result<(), Memory>
    ensures { OnOk result (table.new ≡ passed_all needed (positions_of flow.now live.now nodes.now) table.old) }
{
    for i in 0..nodes.len() {
        pass_node(table, flow, live, nodes[i], number_at(nodes, i + 1))?;
    }
    Ok(())
}

// The number of that index, if there is one.
fn number_at(numbers: &[u32], index: usize) -> Option<u32>
    ensures { result ≡ slice_get numbers.now index }
{
    let number = numbers.get(index)?;
    Some(*number)
}

// Passes a node, behind which the trace goes on with the next. Its start needs nothing.
fn pass_node(
    table: &mut Table,
    flow: &Flow,
    live: &LiveSets,
    number: u32,
    next: Option<u32>,
) -> Result<(), Memory>
    ensures { OnOk result (table.new ≡ passed_all needed (in_node flow.now.values live.now next (slice_get flow.now.nodes number)) table.old) }
{
    let Some(node) = flow.nodes.as_slice().get(number as usize) else {
        return Ok(());
    };
    table.step()?;
    pass_operations(table, node.lirs.as_slice())?;
    pass_end(table, live, flow.values, next, node)?;
    Ok(())
}

fn pass_operations(table: &mut Table, lirs: &[Lir]) -> Result<(), Memory>
    ensures { OnOk result (table.new ≡ passed_all needed (map at_operation lirs.now) table.old) }
{
    for lir in lirs {
        pass_operation(table, lir)?;
    }
    Ok(())
}

fn pass_operation(table: &mut Table, lir: &Lir) -> Result<(), Memory>
    ensures { OnOk result (table.new ≡ passed needed (at_operation lir.now) table.old) }
{
    table.note(lir.uses.as_slice())?;
    table.step()
}

#[tactic(auto, using(crate::proofs::Joining::noted_all_join))]
fn pass_end(
    table: &mut Table,
    live: &LiveSets,
    values: u32,
    next: Option<u32>,
    node: &Node,
) -> Result<(), Memory>
    ensures { OnOk result (table.new ≡ passed needed (at_end values live.now next node.now) table.old) }
{
    table.note_end(&node.end)?;
    note_leaves(table, live, values, next, &node.end)?;
    table.step()
}

// Notes what is live into the nodes to which an end leads out of the trace.
#[tactic(auto, using(crate::proofs::Joining::noted_all_join))]
fn note_leaves(
    table: &mut Table,
    live: &LiveSets,
    values: u32,
    next: Option<u32>,
    end: &Leave,
) -> Result<(), Memory>
    ensures { OnOk result (table.new ≡ with_notes (live_off values live.now next (successors end.now)) table.old) }
{
    match end {
        Leave::Jump { to, .. } => note_live(table, live, values, next, *to),
        Leave::Branch { yes, no, .. } | Leave::Nonzero { yes, no, .. } => {
            note_live(table, live, values, next, *yes)?;
            note_live(table, live, values, next, *no)
        }
        Leave::Return(_) | Leave::Trap(_) => Ok(()),
    }
}

fn note_live(
    table: &mut Table,
    live: &LiveSets,
    values: u32,
    next: Option<u32>,
    node: u32,
) -> Result<(), Memory>
    ensures { OnOk result (table.new ≡ with_notes (cond (is_next next node) [] (live_into values live.now node)) table.old) }
{
    if !is_next(next, node) {
        table.notes.note_live(live, node, values, table.at)?;
    }
    Ok(())
}

fn is_next(next: Option<u32>, node: u32) -> bool
    ensures { result ≡ is_next next node }
{
    match next {
        Some(next) => next == node,
        None => false,
    }
}
