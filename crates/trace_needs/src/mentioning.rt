//! What the positions of a trace use and make.

ghost use Rattle.std.specs.Prelude.{◌≡◌, ◌+◌, ℕ, List, Option, map, OnOk, slice_get, option_to_list};
ghost use Rattle.trace_needs.specs.Needs.{at_start, at_operation, at_end, in_node, positions_of};
ghost use Rattle.trace_needs.specs.Tables.{mentioned, passed, passed_all, noted_all, with_notes};

use crate::table::Table;
use lir_core::{Flow, Lir, Node};
use outside::Memory;

/// Passes the nodes of a trace, and notes what they mention, whatever is live.
pub(crate) fn pass_mentions(table: &mut Table, flow: &Flow, nodes: &[u32]) -> Result<(), Memory>
    ensures { OnOk result ((rows : List (List ℕ)) → table.new ≡ passed_all mentioned (positions_of flow.now rows nodes.now) table.old) }
{
    for number in nodes {
        pass_node(table, flow, *number)?;
    }
    Ok(())
}

fn pass_node(table: &mut Table, flow: &Flow, number: u32) -> Result<(), Memory>
    ensures { OnOk result ((rows : List (List ℕ)) (next : Option ℕ)
        → table.new ≡ passed_all mentioned (in_node flow.now.values rows next (slice_get flow.now.nodes number)) table.old) }
{
    let Some(node) = flow.nodes.as_slice().get(number as usize) else {
        return Ok(());
    };
    pass_start(table, node)?;
    pass_operations(table, node.lirs.as_slice())?;
    pass_end(table, node)?;
    Ok(())
}

fn pass_start(table: &mut Table, node: &Node) -> Result<(), Memory>
    ensures { OnOk result (table.new ≡ passed mentioned (at_start node.now) table.old) }
{
    table.note(node.params.as_slice())?;
    table.step()
}

fn pass_end(table: &mut Table, node: &Node) -> Result<(), Memory>
    ensures { OnOk result ((values : ℕ) (rows : List (List ℕ)) (next : Option ℕ) → table.new ≡ passed mentioned (at_end values rows next node.now) table.old) }
{
    table.note_end(&node.end)?;
    table.step()
}

fn pass_operations(table: &mut Table, lirs: &[Lir]) -> Result<(), Memory>
    ensures { OnOk result (table.new ≡ passed_all mentioned (map at_operation lirs.now) table.old) }
{
    for lir in lirs {
        pass_operation(table, lir)?;
    }
    Ok(())
}

#[tactic(auto, using(crate::proofs::Joining::noted_all_join))]
fn pass_operation(table: &mut Table, lir: &Lir) -> Result<(), Memory>
    ensures { OnOk result (table.new ≡ passed mentioned (at_operation lir.now) table.old) }
{
    table.note(lir.uses.as_slice())?;
    note_definition(table, lir.def)?;
    table.step()
}

fn note_definition(table: &mut Table, def: Option<u32>) -> Result<(), Memory>
    ensures { OnOk result (table.new ≡ with_notes (option_to_list def) table.old) }
{
    match def {
        Some(value) => table.note(&[value]),
        None => Ok(()),
    }
}
