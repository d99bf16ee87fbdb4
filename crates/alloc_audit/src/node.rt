//! A node of a result.

ghost use Rattle.std.specs.Prelude.{◌≡◌, ℕ, List, ◌≤◌, ◌<◌, ◌==◌, ◌&&◌, false, None, length, IfOk, replicate};
ghost use Rattle.block_runs.specs.Live.{has};
ghost use Rattle.lir_core.specs.Flows.{code_node};
ghost use Rattle.lir_core.specs.Rows.{has_bit};
ghost use Rattle.lir_core.specs.Walks.{begin};
ghost use Rattle.alloc_audit.specs.Tests.{are_below};
ghost use Rattle.alloc_audit.specs.Holdings.{room_in, walker_of};
ghost use Rattle.alloc_audit.specs.Nodes.{is_single, is_rising, names_few, has_needed, starts_well, keeps_all, ends_well};
ghost use Rattle.alloc_audit.specs.Parts.{part_failure, part_lines_failure, room_for, placed_by, names_only, has_all, keeps, is_done, is_right};

use crate::places::{
    all_may_be, all_may_have, are_homed, are_true, end_reads_stand, has_behind, has_end, has_live,
    have_if_wanted, is_rising, is_single, reads_of, set_of,
};
use crate::values::are_below;
use crate::walk::{Walk, walk_lines};
use lir_core::{Line, LiveSets, Node, Places};
use loc_state::Homes;
use std::alloc::{AllocError, Global};

/// A node, with what its part of a result is held against: its number, what is live, and how many registers, slots and values
/// there are.
#[derive(Clone, Copy)]
pub(crate) struct AuditedNode<'a> {
    pub(crate) node: &'a Node,
    pub(crate) number: u32,
    pub(crate) live: &'a LiveSets,
    pub(crate) registers: usize,
    pub(crate) slots: usize,
    pub(crate) values: u32,
}

/// A node's part of a result.
#[derive(Clone, Copy)]
pub(crate) struct NodePart<'a> {
    pub(crate) start: &'a Places,
    pub(crate) lines: &'a [Line],
    pub(crate) named: &'a [u8],
    pub(crate) end: &'a Places,
}

// A row with the same values.
fn copy_of(alloc: Global, row: &[Option<u32>]) -> Result<Vec<Option<u32>>, AllocError>
    ensures { IfOk result (λ new. new.items ≡ row.now) }
{
    let mut new = Vec::with_capacity(alloc, row.len())?;
    for held in row {
        new.push(*held)?;
    }
    Ok(new)
}

// A row of so many places without values.
fn none_of(alloc: Global, count: usize) -> Result<Vec<Option<u32>>, AllocError>
    ensures { IfOk result (λ new. new.items ≡ replicate count None) }
{
    let mut new = Vec::with_capacity(alloc, count)?;
    for _ in 0..count {
        new.push(None)?;
    }
    Ok(new)
}

/// A walk at a node's start.
fn begin(alloc: Global, slots: usize, start: &Places) -> Result<Walk, AllocError>
    ensures walker { IfOk result (λ w. (named : List ℕ) → walker_of named w ≡ begin start.now named) }
    ensures room { IfOk result (λ w. (values : ℕ) → room_in values w ≡ room_for (length start.now.regs) slots values) }
    ensures used { IfOk result (λ w. w.used ≡ 0) }
{
    let regs = copy_of(alloc, start.regs.as_slice())?;
    let out = none_of(alloc, slots)?;
    let homes = set_of(alloc, start.homed.as_slice())?;
    Ok(Walk {
        regs,
        slots: out,
        aim: None,
        homes,
        next: 0,
        used: 0,
    })
}

// Whether start places are a row of registers, and homed values that rise.
fn is_shaped(count: usize, start: &Places) -> bool
    ensures { result ≡ ((length start.now.regs == count) && is_single start.now.regs && is_rising start.now.homed) }
{
    start.regs.len() == count
        && is_single(start.regs.as_slice())
        && is_rising(start.homed.as_slice())
}

// Whether start places name live values and parameters alone.
fn both_may(live: &LiveSets, number: u32, params: &Homes, start: &Places) -> bool
    ensures { result ≡ names_only (has_bit live.now number) (has params.now) start.now }
{
    all_may_have(live, number, params, start.regs.as_slice())
        && all_may_be(live, number, params, start.homed.as_slice())
}

fn names_few(alloc: Global, at: &AuditedNode<'_>, start: &Places) -> Result<bool, AllocError>
    ensures { IfOk result (λ b. b ≡ names_few (has_bit at.now.live.now) (code_node at.now.node.now) at.now.number start.now) }
{
    let params = set_of(alloc, at.node.params.as_slice())?;
    Ok(both_may(at.live, at.number, &params, start))
}

// Whether start places have what is live into a node, and the parameters that are wanted.
fn both_have(homes: &Homes, reads: &Homes, at: &AuditedNode<'_>, start: &Places) -> bool
    ensures { result ≡ has_all at.now.values at.now.live.now at.now.number at.now.node.now (has reads.now) (placed_by start.now.regs (has homes.now)) }
{
    let regs = start.regs.as_slice();
    has_live(regs, homes, at.live, at.number, at.values)
        && have_if_wanted(
            regs,
            homes,
            at.live,
            reads,
            &at.node.end,
            at.node.params.as_slice(),
        )
}

fn has_needed(alloc: Global, at: &AuditedNode<'_>, start: &Places) -> Result<bool, AllocError>
    ensures { IfOk result (λ b. b ≡ has_needed at.now.values (has_bit at.now.live.now) (code_node at.now.node.now) at.now.number start.now) }
{
    let homes = set_of(alloc, start.homed.as_slice())?;
    let reads = reads_of(alloc, at.node)?;
    Ok(both_have(&homes, &reads, at, start))
}

fn starts_well(alloc: Global, at: &AuditedNode<'_>, start: &Places) -> Result<bool, AllocError>
    ensures { (slots : ℕ) → IfOk result (λ b. b ≡ starts_well (room_for at.now.registers slots at.now.values) (has_bit at.now.live.now) (code_node at.now.node.now) at.now.number start.now) }
{
    if !is_shaped(at.registers, start) {
        return Ok(false);
    }
    if !names_few(alloc, at, start)? {
        return Ok(false);
    }
    let all = has_needed(alloc, at, start)?;
    Ok(all)
}

// Whether all operations are done, and what the end reads stands in the registers named for it.
fn is_done(walk: &Walk, node: &Node, named: &[u8]) -> bool
    requires { walk.now.used ≤ length named.now }
    ensures { result ≡ is_done node.now named.now walk.now }
{
    let rest = &named[walk.used..];
    walk.next == node.lirs.len()
        && are_below(rest, walk.regs.len())
        && end_reads_stand(&walk.regs, rest, &node.end)
}

// Whether end places are right.
fn is_right(walk: &Walk, end: &Places) -> bool
    ensures { result ≡ is_right end.now walk.now }
{
    are_true(&walk.regs, end.regs.as_slice())
        && are_homed(&walk.homes, end.homed.as_slice())
        && is_single(end.regs.as_slice())
}

// Whether end places have what is wanted behind a node.
fn both_kept(homes: &Homes, at: &AuditedNode<'_>, end: &Places) -> bool
    ensures { result ≡ keeps at.now.values at.now.live.now at.now.node.now (placed_by end.now.regs (has homes.now)) }
{
    let regs = end.regs.as_slice();
    has_end(regs, homes, &at.node.end) && has_behind(regs, homes, at.live, &at.node.end, at.values)
}

fn keeps_all(alloc: Global, at: &AuditedNode<'_>, end: &Places) -> Result<bool, AllocError>
    ensures { (registers slots : ℕ) → IfOk result (λ b. b ≡ keeps_all (room_for registers slots at.now.values) (has_bit at.now.live.now) (code_node at.now.node.now) end.now) }
{
    let homes = set_of(alloc, end.homed.as_slice())?;
    Ok(both_kept(&homes, at, end))
}

fn ends_well(
    alloc: Global,
    at: &AuditedNode<'_>,
    named: &[u8],
    end: &Places,
    walk: &Walk,
) -> Result<bool, AllocError>
    requires { walk.now.used ≤ length named.now }
    ensures { IfOk result (λ b. b ≡ ends_well (room_in at.now.values walk.now) (has_bit at.now.live.now) (code_node at.now.node.now) end.now (walker_of named.now walk.now)) }
{
    if !is_done(walk, at.node, named) {
        return Ok(false);
    }
    if !is_right(walk, end) {
        return Ok(false);
    }
    let all = keeps_all(alloc, at, end)?;
    Ok(all)
}

/// The line at which a node fails, if it does.
pub(crate) fn node_failure(
    alloc: Global,
    at: &AuditedNode<'_>,
    part: &NodePart<'_>,
) -> Result<Option<usize>, AllocError>
    requires { 0 < at.now.registers }
    ensures { IfOk result (λ o. o ≡ part_failure at.now part.now) }
{
    if part.end.regs.len() != at.registers {
        return Ok(Some(0));
    }
    if !starts_well(alloc, at, part.start)? {
        return Ok(Some(0));
    }
    let failure = lines_failure(alloc, at, part)?;
    Ok(failure)
}

// The line at which a walk fails, if it does.
fn lines_failure(
    alloc: Global,
    at: &AuditedNode<'_>,
    part: &NodePart<'_>,
) -> Result<Option<usize>, AllocError>
    requires { 0 < length part.now.start.now.regs }
    ensures { IfOk result (λ o. o ≡ part_lines_failure at.now part.now) }
{
    let NodePart {
        start,
        lines,
        named,
        end,
    } = *part;
    let lirs = at.node.lirs.as_slice();
    let mut walk = begin(alloc, at.slots, start)?;
    if let Some(line) = walk_lines(&mut walk, alloc, at.values, lirs, named, lines)? {
        return Ok(Some(line));
    }
    if !ends_well(alloc, at, named, end, &walk)? {
        return Ok(Some(lines.len() + 1));
    }
    Ok(None)
}
