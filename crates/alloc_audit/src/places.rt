//! Tests on the places before and behind a node.

ghost use Rattle.std.specs.Prelude.{◌≡◌, ℕ, Bool, [], true, false, None, IfOk, OnOk, map};
ghost use Rattle.std.specs.List.{list_all, list_any};
ghost use Rattle.block_runs.specs.Blocks.{end_uses, successors};
ghost use Rattle.block_runs.specs.Live.{has};
ghost use Rattle.block_runs.specs.Valid.{uses_of, block_reads};
ghost use Rattle.lir_core.specs.Flows.{operation_of, code_node};
ghost use Rattle.lir_core.specs.Rows.{has_bit};
ghost use Rattle.lir_core.specs.Spots.{in_register, get};
ghost use Rattle.lir_core.specs.Lines.{end_reads};
ghost use Rattle.lir_core.specs.Rows.{live_into};
ghost use Rattle.loc_state.specs.Homed.{all_inserted};
ghost use Rattle.alloc_audit.specs.Tests.{stand};
ghost use Rattle.alloc_audit.specs.Nodes.{is_single, is_rising};
ghost use Rattle.alloc_audit.specs.Parts.{placed_by, may_be, may_have, passes_on, has_if_wanted, have_live, rises_from, is_above, is_alone, is_so, are_true_of};

use crate::values::{holds, is_value, registers_have, value_in};
use lir_core::{Leave, Lir, LiveSets, Node, next_live};
use loc_state::Homes;
use std::alloc::{AllocError, Global};

/// A set of values.
pub(crate) fn set_of(alloc: Global, values: &[u32]) -> Result<Homes, AllocError>
    ensures { IfOk result (λ homes. has homes ≡ has values.now) }
{
    let homes = Homes::from_slice(alloc, values)?;
    Ok(homes)
}

/// The values that a node reads.
pub(crate) fn reads_of(alloc: Global, node: &Node) -> Result<Homes, AllocError>
    ensures { IfOk result (λ homes. has homes ≡ has (block_reads (code_node node.now))) }
{
    let mut reads = Homes::new(alloc);
    add_uses(&mut reads, node.lirs.as_slice())?;
    add_end(&mut reads, &node.end)?;
    Ok(reads)
}

fn add_all(reads: &mut Homes, values: &[u32]) -> Result<(), AllocError>
    ensures { OnOk result (reads.new ≡ all_inserted values.now reads.old) }
{
    for value in values {
        reads.insert(*value)?;
    }
    Ok(())
}

fn add_uses(reads: &mut Homes, lirs: &[Lir]) -> Result<(), AllocError>
    ensures { OnOk result (reads.new ≡ all_inserted (uses_of (map operation_of lirs.now)) reads.old) }
{
    for lir in lirs {
        add_all(reads, lir.uses.as_slice())?;
    }
    Ok(())
}

fn add_end(reads: &mut Homes, end: &Leave) -> Result<(), AllocError>
    ensures { OnOk result (reads.new ≡ all_inserted (end_uses end.now) reads.old) }
{
    match end {
        Leave::Jump { args, .. } => add_all(reads, args.as_slice()),
        Leave::Branch { a, b, .. } => add_all(reads, &[*a, *b]),
        Leave::Nonzero { a, .. } => add_all(reads, &[*a]),
        Leave::Return(Some(value)) => add_all(reads, &[*value]),
        Leave::Return(None) | Leave::Trap(_) => Ok(()),
    }
}

// Whether a register has a value.
#[tactic(auto, using(crate::proofs::Placing::register_at))]
fn in_register(regs: &[Option<u32>], value: u32) -> bool
    ensures { result ≡ in_register regs.now value }
{
    for held in regs {
        if holds(held, value) {
            return true;
        }
    }
    false
}

// Whether a register's value is in none of the others.
fn is_alone(held: Option<u32>, rest: &[Option<u32>]) -> bool
    ensures { result ≡ is_alone held rest.now }
{
    match held {
        Some(value) => !in_register(rest, value),
        None => true,
    }
}

/// Whether no value is in two registers. Takes quadratic time, for at most 16.
#[tactic(auto, using(crate::proofs::Placing::single_at))]
pub(crate) fn is_single(regs: &[Option<u32>]) -> bool
    ensures { result ≡ is_single regs.now }
{
    for at in 0..regs.len() {
        if !is_alone(regs[at], &regs[at + 1..]) {
            return false;
        }
    }
    true
}

// Whether a number is above another, if there is one.
fn is_above(last: Option<u32>, value: u32) -> bool
    ensures { result ≡ is_above last value }
{
    match last {
        Some(last) => last < value,
        None => true,
    }
}

/// Whether numbers rise.
#[tactic(auto, using(crate::proofs::Placing::rising_is))]
pub(crate) fn is_rising(values: &[u32]) -> bool
    ensures { result ≡ is_rising values.now }
{
    rises(values)
}

fn rises(values: &[u32]) -> bool
    ensures { result ≡ rises_from None values.now }
{
    let mut last = None;
    for value in values {
        if !is_above(last, *value) {
            return false;
        }
        last = Some(*value);
    }
    true
}

// Whether a start may name a value: a live one or a parameter.
fn may_be(live: &LiveSets, node: u32, params: &Homes, value: u32) -> bool
    ensures { result ≡ may_be (has_bit live.now node) (has params.now) value }
{
    live.has(node, value) || params.has(value)
}

fn may_have(live: &LiveSets, node: u32, params: &Homes, held: &Option<u32>) -> bool
    ensures { result ≡ may_have (has_bit live.now node) (has params.now) held.now }
{
    match held {
        Some(value) => may_be(live, node, params, *value),
        None => true,
    }
}

/// Whether registers have live values and parameters alone.
pub(crate) fn all_may_have(live: &LiveSets, node: u32, params: &Homes, regs: &[Option<u32>]) -> bool
    ensures { result ≡ list_all (may_have (has_bit live.now node) (has params.now)) regs.now }
{
    for held in regs {
        if !may_have(live, node, params, held) {
            return false;
        }
    }
    true
}

/// Whether these are live values and parameters alone.
pub(crate) fn all_may_be(live: &LiveSets, node: u32, params: &Homes, values: &[u32]) -> bool
    ensures { result ≡ list_all (may_be (has_bit live.now node) (has params.now)) values.now }
{
    for value in values {
        if !may_be(live, node, params, *value) {
            return false;
        }
    }
    true
}

// Whether a value has a place.
fn is_placed(regs: &[Option<u32>], homes: &Homes, value: u32) -> bool
    ensures { result ≡ placed_by regs.now (has homes.now) value }
{
    in_register(regs, value) || homes.has(value)
}

/// Whether values have places.
pub(crate) fn are_placed(regs: &[Option<u32>], homes: &Homes, values: &[u32]) -> bool
    ensures { result ≡ list_all (placed_by regs.now (has homes.now)) values.now }
{
    for value in values {
        if !is_placed(regs, homes, *value) {
            return false;
        }
    }
    true
}

/// Whether all that is live into a node has a place.
pub(crate) fn has_live(
    regs: &[Option<u32>],
    homes: &Homes,
    live: &LiveSets,
    node: u32,
    values: u32,
) -> bool
    ensures { result ≡ list_all (placed_by regs.now (has homes.now)) (live_into values live.now node) }
{
    let mut from = 0;
    while let Some(value) = next_live(live, node, from, values) {
        if !is_placed(regs, homes, value) {
            return false;
        }
        from = value + 1;
    }
    true
}

// Whether a value is live into a node that follows.
fn passes_on(live: &LiveSets, end: &Leave, value: u32) -> bool
    ensures { result ≡ passes_on live.now end.now value }
{
    match end {
        Leave::Jump { to, .. } => live.has(*to, value),
        Leave::Branch { yes, no, .. } => live.has(*yes, value) || live.has(*no, value),
        Leave::Nonzero { yes, no, .. } => live.has(*yes, value) || live.has(*no, value),
        Leave::Return(_) | Leave::Trap(_) => false,
    }
}

// Whether a parameter has a place, if it is wanted.
fn has_if_wanted(
    regs: &[Option<u32>],
    homes: &Homes,
    live: &LiveSets,
    reads: &Homes,
    end: &Leave,
    value: u32,
) -> bool
    ensures { result ≡ has_if_wanted live.now (has reads.now) end.now (placed_by regs.now (has homes.now)) value }
{
    if is_placed(regs, homes, value) {
        return true;
    }
    !(reads.has(value) || passes_on(live, end, value))
}

/// Whether parameters have places, where they are wanted.
pub(crate) fn have_if_wanted(
    regs: &[Option<u32>],
    homes: &Homes,
    live: &LiveSets,
    reads: &Homes,
    end: &Leave,
    values: &[u32],
) -> bool
    ensures { result ≡ list_all (has_if_wanted live.now (has reads.now) end.now (placed_by regs.now (has homes.now))) values.now }
{
    for value in values {
        if !has_if_wanted(regs, homes, live, reads, end, *value) {
            return false;
        }
    }
    true
}

/// Whether registers have what is said of them.
pub(crate) fn are_true(row: &[Option<u32>], said: &[Option<u32>]) -> bool
    ensures { result ≡ are_true_of (get row.now) 0 said.now }
{
    for (at, held) in said.iter().enumerate() {
        if !is_so(value_in(row, at), *held) {
            return false;
        }
    }
    true
}

// Whether a place has what is said of it.
fn is_so(held: Option<u32>, said: Option<u32>) -> bool
    ensures { result ≡ is_so held said }
{
    match said {
        Some(value) => is_value(held, value),
        None => true,
    }
}

/// Whether values are homed.
pub(crate) fn are_homed(homes: &Homes, values: &[u32]) -> bool
    ensures { result ≡ list_all (has homes.now) values.now }
{
    for value in values {
        if !homes.has(*value) {
            return false;
        }
    }
    true
}

/// Whether what an end reads stands in the registers named for it.
pub(crate) fn end_reads_stand(row: &[Option<u32>], named: &[u8], end: &Leave) -> bool
    ensures { result ≡ stand (get row.now) named.now (end_reads end.now) }
{
    match end {
        Leave::Branch { a, b, .. } => registers_have(row, named, &[*a, *b]),
        Leave::Nonzero { a, .. } => registers_have(row, named, &[*a]),
        Leave::Return(Some(value)) => registers_have(row, named, &[*value]),
        Leave::Jump { .. } => registers_have(row, named, &[]),
        Leave::Return(None) => registers_have(row, named, &[]),
        Leave::Trap(_) => registers_have(row, named, &[]),
    }
}

/// Whether what an end reads or passes on has places.
pub(crate) fn has_end(regs: &[Option<u32>], homes: &Homes, end: &Leave) -> bool
    ensures { result ≡ list_all (placed_by regs.now (has homes.now)) (end_uses end.now) }
{
    match end {
        Leave::Jump { args, .. } => are_placed(regs, homes, args.as_slice()),
        Leave::Branch { a, b, .. } => are_placed(regs, homes, &[*a, *b]),
        Leave::Nonzero { a, .. } => are_placed(regs, homes, &[*a]),
        Leave::Return(Some(value)) => are_placed(regs, homes, &[*value]),
        Leave::Return(None) | Leave::Trap(_) => true,
    }
}

/// Whether what is live into nodes that follow has places.
pub(crate) fn has_behind(
    regs: &[Option<u32>],
    homes: &Homes,
    live: &LiveSets,
    end: &Leave,
    values: u32,
) -> bool
    ensures { result ≡ have_live values live.now (placed_by regs.now (has homes.now)) (successors end.now) }
{
    match end {
        Leave::Jump { to, .. } => has_live(regs, homes, live, *to, values),
        Leave::Branch { yes, no, .. } => {
            has_live(regs, homes, live, *yes, values) && has_live(regs, homes, live, *no, values)
        }
        Leave::Nonzero { yes, no, .. } => {
            has_live(regs, homes, live, *yes, values) && has_live(regs, homes, live, *no, values)
        }
        Leave::Return(_) | Leave::Trap(_) => true,
    }
}
