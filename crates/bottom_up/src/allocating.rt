//! The call.

ghost use Rattle.std.specs.Prelude.{◌≡◌, ◌≤◌, length, IfOk, OnOk, None, slice_get};
ghost use Rattle.lir_core.specs.Lines.{end_reads};
ghost use Rattle.lir_core.specs.Sound.{IsSound, EndsRise};
ghost use Rattle.walked_results.specs.Walked.{IsWalked};
ghost use Rattle.trace_needs.specs.Needs.{last_mention};
ghost use Rattle.loc_back.specs.Steps.{in_part};
ghost use Rattle.std.specs.Option.{option_map};
ghost use Rattle.linear_scan.specs.Linear.{Case, end_position, position_behind};
ghost use Rattle.linear_scan.specs.Inputs.{case_of, IsInput};
ghost use Rattle.bottom_up.specs.Policy.{take_all};
ghost use Rattle.bottom_up.specs.Bottom.{to_end, before_it, along, bottom_up, next_params, behind_nodes};

use crate::ends::{Following, PassedOn, home_off};
use crate::homing::{homed_first, node_at};
use crate::policy::{before, behind, operate_all, take_all};
use lir_core::{Flow, Leave, Node, TraceIn, TraceOut};
use loc_back::Backward;
use outside::Memory;
use std::alloc::Global;
use trace_needs::LateMentions;

/// Bottom-up allocation of a trace: the defined result, which the walk by names accepts, and so is sound, for a valid flow,
/// what is live in it, and a trace. With 16 registers at most it takes time in proportion to what `mentions` takes, to the
/// trace's operations and uses, and to the values that are live at each node, each times a logarithm.
pub fn allocate(alloc: Global, t: &TraceIn) -> Result<TraceOut, Memory>
    requires enough { 4 ≤ t.now.regs }
    requires few { t.now.regs ≤ 16 }
    ensures bottom_up { IsInput (case_of t.now) t.now.trace.now.nodes None
        → IfOk result (λ out. out ≡ bottom_up (case_of t.now) t.now.number t.now.trace.now.nodes) }
    ensures walked { IsInput (case_of t.now) t.now.trace.now.nodes None
        → IfOk result (IsWalked t.now.regs t.now.flow.now t.now.trace.now) }
    ensures sound { IsInput (case_of t.now) t.now.trace.now.nodes None
        → IfOk result (IsSound t.now.regs t.now.flow.now t.now.trace.now) }
    ensures rises { IsInput (case_of t.now) t.now.trace.now.nodes None → IfOk result EndsRise }
{
    let mut positions = LateMentions::new(t.flow, t.trace);
    let homed = homed_first(alloc, t)?;
    let mut b = Backward::new(alloc, homed.as_slice(), t.regs, t.trace.nodes.len())?;
    along(alloc, t, &mut positions, t.trace.nodes.as_slice(), &mut b)?;
    b.close(alloc, t)?;
    Ok(b.finish(t.number))
}

// The position behind a trace's nodes.
fn behind_nodes(flow: &Flow, nodes: &[u32]) -> Result<u32, Memory>
    ensures { IfOk result (λ p. p ≡ behind_nodes flow.now.nodes 0 nodes.now) }
{
    let mut at: u32 = 0;
    for number in nodes {
        at = position_behind(at, node_at(flow, *number))?;
    }
    Ok(at)
}

fn position_behind(at: u32, node: Option<&Node>) -> Result<u32, Memory>
    ensures { IfOk result (λ p. p ≡ position_behind at (option_map (λ n. n.now) node.entry)) }
{
    let Some(node) = node else {
        return Ok(at);
    };
    behind(end_position(at, node)?, 1)
}

fn end_position(at: u32, node: &Node) -> Result<u32, Memory>
    ensures { IfOk result (λ p. p ≡ end_position at node.now) }
{
    behind(behind(at, 1)?, node.lirs.len())
}

// The position of a node's start, by that behind it.
fn start_of(behind: u32, node: Option<&Node>) -> Result<u32, Memory>
    ensures { IfOk result (λ p. behind ≡ position_behind p (option_map (λ n. n.now) node.entry)) }
{
    match node {
        Some(node) => before(before(behind, 2)?, node.lirs.len()),
        None => Ok(behind),
    }
}

// The nodes of a trace, from the last to the first.
fn along(
    alloc: Global,
    t: &TraceIn,
    positions: &mut LateMentions<'_>,
    nodes: &[u32],
    b: &mut Backward,
) -> Result<(), Memory>
    requires few { length b.old.part.regs ≤ 16 }
    ensures { OnOk result (b.new ≡ along (case_of t.now) (last_mention positions.old) 0 nodes.now b.old) }
{
    let mut passed = PassedOn::new(alloc);
    let mut at = behind_nodes(t.flow, nodes)?;
    let mut left = nodes.len();
    while left > 0 {
        left -= 1;
        let node = node_at(t.flow, nodes[left]);
        let next = number_at(nodes, left + 1);
        at = start_of(at, node)?;
        walk(alloc, t, positions, b, &mut passed, at, node, next)?;
    }
    Ok(())
}

fn number_at(numbers: &[u32], index: usize) -> Option<u32>
    ensures { result ≡ slice_get numbers.now index }
{
    let number = numbers.get(index)?;
    Some(*number)
}

// A node whose start is at a position, and behind which the trace goes on with the next.
fn walk(
    alloc: Global,
    t: &TraceIn,
    positions: &mut LateMentions<'_>,
    b: &mut Backward,
    passed: &mut PassedOn,
    at: u32,
    node: Option<&Node>,
    next: Option<u32>,
) -> Result<(), Memory>
    requires few { length b.old.part.regs ≤ 16 }
    ensures step { OnOk result (b.new ≡ before_it (case_of t.now) (last_mention positions.old) at (option_map (λ n. n.now) node.entry) next b.old) }
    ensures row { OnOk result (length b.new.part.regs ≡ length b.old.part.regs) }
    ensures same { positions.new ≡ positions.old }
{
    let Some(node) = node else {
        return Ok(());
    };
    to_end(alloc, t, b, passed, node, next)?;
    take_end(alloc, b, positions, end_position(at, node)?, &node.end)?;
    operate_all(alloc, b, positions, behind(at, 1)?, node.lirs.as_slice())
}

// The end of a node, from the start of the trace's next node.
#[tactic(auto, using(crate::proofs::Steps::homes_join))]
fn to_end(
    alloc: Global,
    t: &TraceIn,
    b: &mut Backward,
    passed: &mut PassedOn,
    node: &Node,
    next: Option<u32>,
) -> Result<(), Memory>
    requires few { length b.old.part.regs ≤ 16 }
    ensures step { OnOk result (b.new ≡ to_end (case_of t.now) node.now next b.old) }
    ensures row { OnOk result (length b.new.part.regs ≡ length b.old.part.regs) }
{
    let params = next_params(t.flow, next);
    let following = Following {
        node: next,
        params,
        regs: b.part.regs.as_slice(),
    };
    passed.pass(alloc, &following, &node.end)?;
    b.next_node(
        alloc,
        params,
        &node.end,
        passed.args.as_slice(),
        passed.homes.as_slice(),
    )?;
    home_off(&mut b.part.homed, t.live, t.flow.values, next, &node.end)?;
    Ok(())
}

fn next_params(flow: &Flow, next: Option<u32>) -> &[u32]
    ensures { (x : Case) → x.flow ≡ flow.now → result.now ≡ next_params x next }
{
    let Some(number) = next else {
        return &[];
    };
    match node_at(flow, number) {
        Some(node) => node.params.as_slice(),
        None => &[],
    }
}

// Takes what an end uses.
fn take_end(
    alloc: Global,
    b: &mut Backward,
    positions: &mut LateMentions<'_>,
    at: u32,
    end: &Leave,
) -> Result<(), Memory>
    requires few { length b.old.part.regs ≤ 16 }
    ensures step { OnOk result (b.new ≡ in_part (take_all (last_mention positions.old) at (end_reads end.now) (end_reads end.now)) b.old) }
    ensures row { OnOk result (length b.new.part.regs ≡ length b.old.part.regs) }
    ensures same { positions.new ≡ positions.old }
{
    match end {
        Leave::Branch { a, b: other, .. } => take_all(alloc, b, positions, at, &[*a, *other]),
        Leave::Nonzero { a, .. } => take_all(alloc, b, positions, at, &[*a]),
        Leave::Return(Some(a)) => take_all(alloc, b, positions, at, &[*a]),
        Leave::Return(None) | Leave::Jump { .. } | Leave::Trap(_) => Ok(()),
    }
}
