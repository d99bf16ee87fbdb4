//! The policy at an operation.

ghost use Rattle.std.specs.Prelude.{◌≡◌, ◌+◌, ◌<◌, ◌≤◌, length, IfOk, OnOk, option_to_list};
ghost use Rattle.trace_needs.specs.Asked.{need_told};
ghost use Rattle.loc_state.specs.Steps.{in_part};
ghost use Rattle.linear_scan.specs.Policy.{is_needed, bring_one, bring_all, drop_one, drop_all, define_one, needed_in, call_one, operate, operate_all};

use crate::choosing::victim;
use lir_core::Lir;
use loc_state::{Forward, has_register, lowest_empty};
use outside::Memory;
use std::alloc::{AllocError, Global};
use trace_needs::Needs;

/// The number behind a position's.
pub(crate) fn next(at: u32) -> Result<u32, Memory>
    ensures { IfOk result (λ behind. behind ≡ at + 1) }
{
    at.checked_add(1).ok_or(Memory)
}

/// Whether a value has a need from a position on.
pub(crate) fn is_needed(positions: &Needs, at: u32, value: u32) -> bool
    ensures { result ≡ is_needed (need_told positions.now) at value }
{
    positions.next_need(value, at).is_some()
}

// Brings a use into a register.
fn bring_one(
    fw: &mut Forward,
    positions: &Needs,
    at: u32,
    keep: &[u32],
    value: u32,
) -> Result<(), Memory>
    requires some { 0 < length fw.old.part.regs }
    requires few { length fw.old.part.regs ≤ 16 }
    ensures step { OnOk result (fw.new ≡ in_part (bring_one (need_told positions.now) at keep.now value) fw.old) }
    ensures row { OnOk result (length fw.new.part.regs ≡ length fw.old.part.regs) }
{
    let regs = fw.part.regs.as_slice();
    if has_register(regs, value) {
        fw.bring(value, None)?;
        return Ok(());
    }
    if let Some(reg) = lowest_empty(regs) {
        fw.bring(value, Some(reg))?;
        return Ok(());
    }
    let reg = victim(regs, keep, positions, at);
    fw.evict(reg)?;
    fw.bring(value, Some(reg))?;
    Ok(())
}

/// Brings uses into registers.
pub(crate) fn bring_all(
    fw: &mut Forward,
    positions: &Needs,
    at: u32,
    uses: &[u32],
) -> Result<(), Memory>
    requires some { 0 < length fw.old.part.regs }
    requires few { length fw.old.part.regs ≤ 16 }
    ensures step { OnOk result (fw.new ≡ in_part (bring_all (need_told positions.now) at uses.now uses.now) fw.old) }
    ensures row { OnOk result (length fw.new.part.regs ≡ length fw.old.part.regs) }
{
    for value in uses {
        bring_one(fw, positions, at, uses, *value)?;
    }
    Ok(())
}

// Takes a value's places away if it has no need.
fn drop_one(fw: &mut Forward, positions: &Needs, at: u32, value: u32)
    ensures step { fw.new ≡ in_part (drop_one (need_told positions.now) at value) fw.old }
    ensures row { length fw.new.part.regs ≡ length fw.old.part.regs }
{
    if !is_needed(positions, at, value) {
        fw.drop_value(value);
    }
}

fn drop_all(fw: &mut Forward, positions: &Needs, at: u32, values: &[u32])
    ensures step { fw.new ≡ in_part (drop_all (need_told positions.now) at values.now) fw.old }
    ensures row { length fw.new.part.regs ≡ length fw.old.part.regs }
{
    for value in values {
        drop_one(fw, positions, at, *value);
    }
}

// Gives the definition of an operation that isn't a call a register.
fn define_one(
    fw: &mut Forward,
    positions: &Needs,
    at: u32,
    index: u32,
    lir: &Lir,
) -> Result<(), Memory>
    requires some { 0 < length fw.old.part.regs }
    requires few { length fw.old.part.regs ≤ 16 }
    ensures step { OnOk result (fw.new ≡ in_part (define_one (need_told positions.now) at index lir.now.def) fw.old) }
    ensures row { OnOk result (length fw.new.part.regs ≡ length fw.old.part.regs) }
{
    let Some(value) = lir.def else {
        fw.define(index, lir, None)?;
        return Ok(());
    };
    if let Some(reg) = lowest_empty(fw.part.regs.as_slice()) {
        fw.define(index, lir, Some(reg))?;
        drop_one(fw, positions, at, value);
        return Ok(());
    }
    let reg = victim(fw.part.regs.as_slice(), &[], positions, at);
    fw.evict(reg)?;
    fw.define(index, lir, Some(reg))?;
    drop_one(fw, positions, at, value);
    Ok(())
}

// The values in registers that have a need.
fn needed_in(
    alloc: Global,
    positions: &Needs,
    at: u32,
    regs: &[Option<u32>],
) -> Result<Vec<u32>, AllocError>
    ensures { IfOk result (λ values. values.items ≡ needed_in (need_told positions.now) at regs.now) }
{
    let mut values = Vec::new(alloc);
    for content in regs {
        if let Some(value) = content {
            if is_needed(positions, at, *value) {
                values.push(*value)?;
            }
        }
    }
    Ok(values)
}

// A call, behind whose position needs count from a number on.
fn call(
    alloc: Global,
    fw: &mut Forward,
    positions: &Needs,
    behind: u32,
    index: u32,
    lir: &Lir,
) -> Result<(), Memory>
    requires some { 0 < length fw.old.part.regs }
    requires few { length fw.old.part.regs ≤ 16 }
    ensures step { OnOk result (fw.new ≡ in_part (call_one (need_told positions.now) (drop_all (need_told positions.now)) behind index lir.now) fw.old) }
    ensures row { OnOk result (length fw.new.part.regs ≡ length fw.old.part.regs) }
{
    let keep = needed_in(alloc, positions, behind, fw.part.regs.as_slice())?;
    fw.call(alloc, index, lir, keep.as_slice())?;
    drop_all(fw, positions, behind, lir.uses.as_slice());
    drop_definition(fw, positions, behind, lir.def);
    Ok(())
}

fn drop_definition(fw: &mut Forward, positions: &Needs, at: u32, def: Option<u32>)
    ensures step { fw.new ≡ in_part (drop_all (need_told positions.now) at (option_to_list def)) fw.old }
    ensures row { length fw.new.part.regs ≡ length fw.old.part.regs }
{
    if let Some(value) = def {
        drop_one(fw, positions, at, value);
    }
}

// An operation at a position.
fn operate(
    alloc: Global,
    fw: &mut Forward,
    positions: &Needs,
    at: u32,
    index: u32,
    lir: &Lir,
) -> Result<(), Memory>
    requires some { 0 < length fw.old.part.regs }
    requires few { length fw.old.part.regs ≤ 16 }
    ensures step { OnOk result (fw.new ≡ in_part (operate (need_told positions.now) (drop_all (need_told positions.now)) at index lir.now) fw.old) }
    ensures row { OnOk result (length fw.new.part.regs ≡ length fw.old.part.regs) }
{
    let behind = next(at)?;
    if lir.call {
        return call(alloc, fw, positions, behind, index, lir);
    }
    bring_all(fw, positions, at, lir.uses.as_slice())?;
    drop_all(fw, positions, behind, lir.uses.as_slice());
    define_one(fw, positions, behind, index, lir)
}

/// The operations of a node, the first of which is at a position.
pub(crate) fn operate_all(
    alloc: Global,
    fw: &mut Forward,
    positions: &Needs,
    first: u32,
    lirs: &[Lir],
) -> Result<u32, Memory>
    requires some { 0 < length fw.old.part.regs }
    requires few { length fw.old.part.regs ≤ 16 }
    ensures step { IfOk result (λ at. fw.new ≡ in_part (operate_all (need_told positions.now) (drop_all (need_told positions.now)) first 0 lirs.now) fw.old) }
    ensures position { IfOk result (λ at. at ≡ first + length lirs.now) }
    ensures row { IfOk result (λ at. length fw.new.part.regs ≡ length fw.old.part.regs) }
{
    let mut at = first;
    let mut index: u32 = 0;
    for lir in lirs {
        operate(alloc, fw, positions, at, index, lir)?;
        at = next(at)?;
        index = next(index)?;
    }
    Ok(at)
}
