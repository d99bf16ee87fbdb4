//! Which values are homed at the start and the end of a node.

ghost use Rattle.std.specs.Prelude.{◌≡◌, [], ◌∷◌, nat_lt, filter, None, IfOk, OnOk};
ghost use Rattle.block_runs.specs.Blocks.{end_uses, successors};
ghost use Rattle.loc_state.specs.Homed.{all_inserted};
ghost use Rattle.simple_policies.specs.plain.Plain.{in_homes, picked, is_at_start, is_at_end};
ghost use Rattle.simple_policies.specs.plain.Marks.{live_into_each};

use lir_core::{Items, Leave, LiveSets, Node, Places, TraceIn};
use std::alloc::{AllocError, Global};
use value_sets::ValueSet;

/// The places at a node's start: what is live there and the parameters, homed. The set is filled anew.
pub(crate) fn start(
    alloc: Global,
    t: &TraceIn,
    marks: &mut ValueSet,
    number: u32,
    node: &Node,
) -> Result<Places, AllocError>
    ensures { IfOk result (λ places. places ≡ in_homes t.now.regs (picked t.now.flow.now.values (is_at_start t.now.live.now number node.now))) }
{
    let values = t.flow.values;
    marks.clear();
    marks.insert_live(t.live, number, values)?;
    marks.insert_all(node.params.as_slice())?;
    in_homes(alloc, t.regs, marks, values)
}

/// The places at a node's end: what the end reads or passes on and what is live into a node that follows, homed. The set is
/// filled anew.
pub(crate) fn end(
    alloc: Global,
    t: &TraceIn,
    marks: &mut ValueSet,
    end: &Leave,
) -> Result<Places, AllocError>
    ensures { IfOk result (λ places. places ≡ in_homes t.now.regs (picked t.now.flow.now.values (is_at_end t.now.live.now end.now))) }
{
    let values = t.flow.values;
    marks.clear();
    mark_followers(marks, t.live, end, values)?;
    mark_read(marks, end)?;
    in_homes(alloc, t.regs, marks, values)
}

// Marks what is live into the nodes that follow.
fn mark_followers(
    marks: &mut ValueSet,
    live: &LiveSets,
    end: &Leave,
    values: u32,
) -> Result<(), AllocError>
    ensures { OnOk result (marks.new ≡ all_inserted (live_into_each values live.now (successors end.now)) marks.old) }
{
    match end {
        Leave::Jump { to, .. } => marks.insert_live(live, *to, values),
        Leave::Branch { yes, no, .. } => mark_both(marks, live, *yes, *no, values),
        Leave::Nonzero { yes, no, .. } => mark_both(marks, live, *yes, *no, values),
        Leave::Return(_) => Ok(()),
        Leave::Trap(_) => Ok(()),
    }
}

fn mark_both(
    marks: &mut ValueSet,
    live: &LiveSets,
    yes: u32,
    no: u32,
    values: u32,
) -> Result<(), AllocError>
    ensures { OnOk result (marks.new ≡ all_inserted (live_into_each values live.now (yes ∷ no ∷ [])) marks.old) }
{
    marks.insert_live(live, yes, values)?;
    marks.insert_live(live, no, values)
}

// Marks what an end reads or passes on.
fn mark_read(marks: &mut ValueSet, end: &Leave) -> Result<(), AllocError>
    ensures { OnOk result (marks.new ≡ all_inserted (end_uses end.now) marks.old) }
{
    match end {
        Leave::Jump { args, .. } => marks.insert_all(args.as_slice()),
        Leave::Branch { a, b, .. } => marks.insert_all(&[*a, *b]),
        Leave::Nonzero { a, .. } => marks.insert(*a),
        Leave::Return(Some(a)) => marks.insert(*a),
        Leave::Return(None) => Ok(()),
        Leave::Trap(_) => Ok(()),
    }
}

// What is marked of so many values, homed, and nothing in registers.
fn in_homes(
    alloc: Global,
    regs: u8,
    marks: &mut ValueSet,
    values: u32,
) -> Result<Places, AllocError>
    ensures { IfOk result (λ places. places ≡ in_homes regs (filter (λ v. nat_lt v values) marks.old)) }
{
    marks.keep_below(values);
    let homed = marks.list(alloc)?;
    Ok(Places {
        regs: Items::from_vec(vec![in alloc; None; regs as usize]?),
        homed,
    })
}
