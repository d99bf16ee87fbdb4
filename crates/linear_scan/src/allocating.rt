//! The call.

ghost use Rattle.std.specs.Prelude.{◌≡◌, ℕ, [], ◌+◌, ◌<◌, ◌≤◌, length, Option, true, is_some, slice_get, IfOk, IfSome, OnOk};
ghost use Rattle.std.specs.Option.{option_map};
ghost use Rattle.lir_core.specs.Lines.{end_reads};
ghost use Rattle.lir_core.specs.Sound.{IsSound, EndsRise};
ghost use Rattle.walked_results.specs.Walked.{IsWalked};
ghost use Rattle.trace_needs.specs.Asked.{need_told};
ghost use Rattle.loc_state.specs.Steps.{in_part, places};
ghost use Rattle.linear_scan.specs.Policy.{bring_all, drop_all};
ghost use Rattle.linear_scan.specs.Starts.{arguments_of};
ghost use Rattle.linear_scan.specs.Linear.{params_of, end_of, first_start, next_start, position_behind, behind, along, result_of, linear};
ghost use Rattle.linear_scan.specs.Inputs.{case_of, hint_of, lent, IsInput};

use crate::policy::{bring_all, next, operate_all};
use crate::starting::{Behind, Head, number_at, start_afresh, start_behind};
use lir_core::{Flow, Items, Leave, Node, Places, TraceIn, TraceOut};
use loc_state::Forward;
use outside::Memory;
use std::alloc::Global;
use trace_needs::{Needs, needs};

/// Linear scan over a trace: the defined result, which the walk by names accepts, and so is sound, for a valid flow, what is live in it, a trace, and a hint
/// that is fit or none. With 16 registers at most it takes time in proportion to what `needs` takes, to the trace's
/// operations and uses, and to the homed values at each node, each times a logarithm.
pub fn allocate(alloc: Global, t: &TraceIn, hint: Option<&Places>) -> Result<TraceOut, Memory>
    requires enough { 4 ≤ t.now.regs }
    requires few { t.now.regs ≤ 16 }
    requires row { IfSome hint (λ q. length q.now.regs ≡ t.now.regs) }
    ensures linear { IsInput (case_of t.now) t.now.trace.now.nodes (hint_of t.now.from (lent hint.entry))
        → IfOk result (λ out. out ≡ linear (case_of t.now) t.now.number t.now.trace.now.nodes (hint_of t.now.from (lent hint.entry))) }
    ensures walked { IsInput (case_of t.now) t.now.trace.now.nodes (hint_of t.now.from (lent hint.entry))
        → IfOk result (IsWalked t.now.regs t.now.flow.now t.now.trace.now) }
    ensures sound { IsInput (case_of t.now) t.now.trace.now.nodes (hint_of t.now.from (lent hint.entry))
        → IfOk result (IsSound t.now.regs t.now.flow.now t.now.trace.now) }
    ensures rises { IsInput (case_of t.now) t.now.trace.now.nodes (hint_of t.now.from (lent hint.entry))
        → IfOk result EndsRise }
{
    let nodes = t.trace.nodes.as_slice();
    let Some(head) = number_at(nodes, 0) else {
        return Ok(empty(alloc, t.number));
    };
    let positions = needs(alloc, t.flow, t.trace, t.live)?;
    let start = first_start(alloc, t, &positions, head, hint)?;
    let fw = Forward::new(alloc, start, nodes.len())?;
    let fw = along(alloc, t, &positions, nodes, fw)?;
    Ok(fw.finish(t.number))
}

fn empty(alloc: Global, number: u32) -> TraceOut
    ensures { result ≡ record { trace = number; starts = []; ends = []; lines = []; regs = [] } }
{
    TraceOut {
        trace: number,
        starts: Items::new(alloc),
        ends: Items::new(alloc),
        lines: Items::new(alloc),
        regs: Items::new(alloc),
    }
}

// Where the trace's first node starts.
fn first_start(
    alloc: Global,
    t: &TraceIn,
    positions: &Needs,
    head: u32,
    hint: Option<&Places>,
) -> Result<Places, Memory>
    requires few { t.now.regs ≤ 16 }
    requires row { IfSome hint (λ q. length q.now.regs ≡ t.now.regs) }
    ensures start { IfOk result (λ q. q ≡ first_start (case_of t.now) (need_told positions.now) head (hint_of t.now.from (lent hint.entry))) }
    ensures row { IfOk result (λ q. length q.regs ≡ t.now.regs) }
{
    let params = params_of(t.flow, head);
    let head = Head {
        live: t.live,
        node: head,
        params,
    };
    if let Some(from) = t.from {
        if let Some(q) = hint {
            let q = Behind {
                regs: q.regs.as_slice(),
                homed: q.homed.as_slice(),
            };
            return Ok(start_behind(alloc, positions, 0, &head, end_of(t.flow, from), &q)?);
        }
    }
    Ok(start_afresh(alloc, positions, 0, &head, t.flow.values, t.regs)?)
}

// The nodes of a trace, one after the other.
fn along(
    alloc: Global,
    t: &TraceIn,
    positions: &Needs,
    nodes: &[u32],
    mut fw: Forward,
) -> Result<Forward, Memory>
    requires some { 0 < length fw.part.regs }
    requires few { length fw.part.regs ≤ 16 }
    ensures { IfOk result (λ f. f ≡ along (case_of t.now) (need_told positions.now) (drop_all (need_told positions.now)) 0 nodes.now fw) }
{
    let mut at = 0;
    for i in 0..nodes.len() {
        at = walk(
            alloc,
            t,
            positions,
            &mut fw,
            at,
            nodes[i],
            number_at(nodes, i + 1),
        )?;
    }
    Ok(fw)
}

// A node whose start is at a position, and behind which the trace goes on with the next.
fn walk(
    alloc: Global,
    t: &TraceIn,
    positions: &Needs,
    fw: &mut Forward,
    at: u32,
    number: u32,
    following: Option<u32>,
) -> Result<u32, Memory>
    requires some { 0 < length fw.old.part.regs }
    requires few { length fw.old.part.regs ≤ 16 }
    ensures step { IfOk result (λ b. fw.new ≡ behind (case_of t.now) (need_told positions.now)
        (drop_all (need_told positions.now)) at (slice_get t.now.flow.now.nodes number) following fw.old) }
    ensures position { IfOk result (λ b. b ≡ position_behind at (slice_get t.now.flow.now.nodes number)) }
    ensures row { IfOk result (λ b. is_some following ≡ true → length fw.new.part.regs ≡ length fw.old.part.regs) }
{
    let Some(node) = node_at(t.flow, number) else {
        return Ok(at);
    };
    fw.make_room(alloc, node.lirs.len())?;
    let end = operate_all(alloc, fw, positions, next(at)?, node.lirs.as_slice())?;
    bring_end(fw, positions, end, &node.end)?;
    let behind = next(end)?;
    let start = next_start(alloc, t, positions, behind, fw, &node.end, following)?;
    fw.next_node(alloc, &node.end, start)?;
    Ok(behind)
}

// Brings what an end uses.
fn bring_end(fw: &mut Forward, positions: &Needs, at: u32, end: &Leave) -> Result<(), Memory>
    requires some { 0 < length fw.old.part.regs }
    requires few { length fw.old.part.regs ≤ 16 }
    ensures step { OnOk result (fw.new ≡ in_part (bring_all (need_told positions.now) at (end_reads end.now) (end_reads end.now)) fw.old) }
    ensures row { OnOk result (length fw.new.part.regs ≡ length fw.old.part.regs) }
{
    match end {
        Leave::Branch { a, b, .. } => bring_all(fw, positions, at, &[*a, *b]),
        Leave::Nonzero { a, .. } => bring_all(fw, positions, at, &[*a]),
        Leave::Return(Some(a)) => bring_all(fw, positions, at, &[*a]),
        Leave::Return(None) | Leave::Jump { .. } | Leave::Trap(_) => Ok(()),
    }
}

// Where the next node starts, if there is one.
fn next_start(
    alloc: Global,
    t: &TraceIn,
    positions: &Needs,
    at: u32,
    fw: &Forward,
    end: &Leave,
    following: Option<u32>,
) -> Result<Option<Places>, Memory>
    requires { length fw.now.part.regs ≤ 16 }
    ensures start { IfOk result (λ s. s ≡ next_start (case_of t.now) (need_told positions.now) at end.now (places fw.now.part) following) }
    ensures row { IfOk result (λ s. IfSome s (λ q. length q.regs ≡ length fw.now.part.regs)) }
    ensures some { IfOk result (λ s. is_some s ≡ is_some following) }
{
    let Some(node) = following else {
        return Ok(None);
    };
    let head = Head {
        live: t.live,
        node,
        params: params_of(t.flow, node),
    };
    let homed = fw.part.homed.list(alloc)?;
    let q = Behind {
        regs: fw.part.regs.as_slice(),
        homed: homed.as_slice(),
    };
    let start = start_behind(alloc, positions, at, &head, arguments_of(end), &q)?;
    Ok(Some(start))
}

fn node_at(flow: &Flow, number: u32) -> Option<&Node>
    ensures { option_map (λ n. n.now) result ≡ slice_get flow.now.nodes number }
{
    flow.nodes.as_slice().get(number as usize)
}

fn params_of(flow: &Flow, number: u32) -> &[u32]
    ensures { result.now ≡ params_of (slice_get flow.now.nodes number) }
{
    match node_at(flow, number) {
        Some(node) => node.params.as_slice(),
        None => &[],
    }
}

fn end_of(flow: &Flow, number: u32) -> &[u32]
    ensures { result.now ≡ end_of (slice_get flow.now.nodes number) }
{
    match node_at(flow, number) {
        Some(node) => arguments_of(&node.end),
        None => &[],
    }
}

fn arguments_of(end: &Leave) -> &[u32]
    ensures { result.now ≡ arguments_of end.now }
{
    match end {
        Leave::Jump { args, .. } => args.as_slice(),
        _ => &[],
    }
}
