//! The policy at an operation.

ghost use Rattle.std.specs.Prelude.{◌≡◌, ◌+◌, ◌≤◌, length, drop, map, None, IfOk, OnOk};
ghost use Rattle.block_runs.specs.Blocks.{Operation};
ghost use Rattle.lir_core.specs.Flows.{operation_of};
ghost use Rattle.trace_needs.specs.Needs.{last_mention};
ghost use Rattle.loc_back.specs.Steps.{in_part};
ghost use Rattle.lir_core.specs.Spots.{get};
ghost use Rattle.loc_state.specs.Registers.{is};
ghost use Rattle.bottom_up.specs.Policy.{is_empty, own_or_lowest, seated_at, with_use, with_arguments, with_first, before_call, register_in, call_one, take_one, take_all, made_in, operate, operate_all};

use crate::choosing::victim;
use lir_core::{Lir, Template, is_aimed};
use loc_back::Backward;
use loc_state::{Registers, has_register, lowest_empty};
use outside::Memory;
use std::alloc::{AllocError, Global};
use trace_needs::LateMentions;

/// A number so far behind a position.
pub(crate) fn behind(at: u32, count: usize) -> Result<u32, Memory>
    ensures { IfOk result (λ sum. sum ≡ at + count) }
{
    let Ok(count) = u32::try_from(count) else {
        return Err(Memory);
    };
    at.checked_add(count).ok_or(Memory)
}

/// A number so far before a position.
pub(crate) fn before(at: u32, count: usize) -> Result<u32, Memory>
    ensures { IfOk result (λ rest. at ≡ rest + count) }
{
    let Ok(count) = u32::try_from(count) else {
        return Err(Memory);
    };
    at.checked_sub(count).ok_or(Memory)
}

// Takes a use.
#[tactic(auto, using(crate::proofs::Steps::taken_again))]
fn take_one(
    alloc: Global,
    b: &mut Backward,
    positions: &mut LateMentions<'_>,
    at: u32,
    keep: &[u32],
    value: u32,
) -> Result<(), Memory>
    requires few { length b.old.part.regs ≤ 16 }
    ensures step { OnOk result (b.new ≡ in_part (take_one (last_mention positions.old) at keep.now value) b.old) }
    ensures row { OnOk result (length b.new.part.regs ≡ length b.old.part.regs) }
    ensures same { positions.new ≡ positions.old }
{
    let regs = b.part.regs.as_slice();
    if let Some(reg) = register_in(regs, value) {
        b.take(value, Some(reg))?;
        return Ok(());
    }
    if let Some(reg) = lowest_empty(regs) {
        b.take(value, Some(reg))?;
        return Ok(());
    }
    let reg = victim(alloc, regs, keep, positions, at)?;
    b.evict(reg)?;
    b.take(value, Some(reg))?;
    Ok(())
}

/// Takes uses.
pub(crate) fn take_all(
    alloc: Global,
    b: &mut Backward,
    positions: &mut LateMentions<'_>,
    at: u32,
    uses: &[u32],
) -> Result<(), Memory>
    requires few { length b.old.part.regs ≤ 16 }
    ensures step { OnOk result (b.new ≡ in_part (take_all (last_mention positions.old) at uses.now uses.now) b.old) }
    ensures row { OnOk result (length b.new.part.regs ≡ length b.old.part.regs) }
    ensures same { positions.new ≡ positions.old }
{
    for value in uses {
        take_one(alloc, b, positions, at, uses, *value)?;
    }
    Ok(())
}

// The register in which a definition is made.
fn made_in(
    alloc: Global,
    regs: &[Option<u32>],
    positions: &mut LateMentions<'_>,
    at: u32,
    def: Option<u32>,
) -> Result<Option<u8>, Memory>
    requires { length regs.now ≤ 16 }
    ensures reg { IfOk result (λ reg. reg ≡ made_in (last_mention positions.old) at def regs.now) }
    ensures same { positions.new ≡ positions.old }
{
    let Some(value) = def else {
        return Ok(None);
    };
    if let Some(reg) = register_in(regs, value) {
        return Ok(Some(reg));
    }
    if let Some(reg) = lowest_empty(regs) {
        return Ok(Some(reg));
    }
    let reg = victim(alloc, regs, &[], positions, at)?;
    Ok(Some(reg))
}

// An argument's own place among the first four where that is empty, else the lowest empty register.
fn own_or_lowest(index: usize, regs: &[Option<u32>]) -> Option<u8>
    requires { length regs.now ≤ 16 }
    ensures { result ≡ own_or_lowest index regs.now }
{
    if index < 4 && is_empty(regs, index) {
        return Some(index as u8);
    }
    lowest_empty(regs)
}

fn is_empty(regs: &[Option<u32>], index: usize) -> bool
    ensures { result ≡ is_empty (get regs.now index) }
{
    match regs.get(index) {
        Some(content) => content.is_none(),
        None => true,
    }
}

fn seat(regs: &mut Registers, value: u32, reg: Option<u8>)
    ensures { regs.new ≡ seated_at value reg regs.old }
{
    if let Some(reg) = reg {
        if (reg as usize) < regs.as_slice().len() {
            regs.set(reg, Some(value));
        }
    }
}

fn add_use(regs: &mut Registers, value: u32, reg: Option<u8>)
    ensures step { regs.new ≡ with_use value reg regs.old }
    ensures row { length regs.new ≡ length regs.old }
{
    if !has_register(regs.as_slice(), value) {
        seat(regs, value, reg);
    }
}

fn add_arguments(regs: &mut Registers, arguments: &[u32])
    requires few { length regs.old ≤ 16 }
    ensures step { regs.new ≡ with_arguments 0 arguments.now regs.old }
    ensures row { length regs.new ≡ length regs.old }
{
    for (index, value) in arguments.iter().enumerate() {
        let reg = own_or_lowest(index, regs.as_slice());
        add_use(regs, *value, reg);
    }
}

fn add_first(regs: &mut Registers, uses: &[u32])
    requires few { length regs.old ≤ 16 }
    ensures step { regs.new ≡ with_first uses.now regs.old }
    ensures row { length regs.new ≡ length regs.old }
{
    if let Some(value) = uses.first() {
        let reg = lowest_empty(regs.as_slice());
        add_use(regs, *value, reg);
    }
}

// The registers before a call.
fn before_call(regs: &mut Registers, template: Template, uses: &[u32])
    requires few { length regs.old ≤ 16 }
    ensures step { (op : Operation) → op.code ≡ template → op.uses ≡ uses.now → regs.new ≡ before_call op regs.old }
    ensures row { length regs.new ≡ length regs.old }
{
    if is_aimed(template) {
        add_arguments(regs, behind_first(uses));
        add_first(regs, uses);
    } else {
        add_arguments(regs, uses);
    }
}

fn behind_first(uses: &[u32]) -> &[u32]
    ensures { result.now ≡ drop 1 uses.now }
{
    match uses.split_first() {
        Some((_, rest)) => rest,
        None => &[],
    }
}

fn registers_in(
    alloc: Global,
    regs: &[Option<u32>],
    uses: &[u32],
) -> Result<Vec<Option<u8>>, AllocError>
    requires { length regs.now ≤ 16 }
    ensures { IfOk result (λ args. args.items ≡ map (register_in regs.now) uses.now) }
{
    let mut args = Vec::with_capacity(alloc, uses.len())?;
    for value in uses {
        args.push(register_in(regs, *value))?;
    }
    Ok(args)
}

// The first register that has a value, if one has it.
fn register_in(regs: &[Option<u32>], value: u32) -> Option<u8>
    requires { length regs.now ≤ 16 }
    ensures { result ≡ register_in regs.now value }
{
    let mut reg: u8 = 0;
    for content in regs {
        if is(*content, value) {
            return Some(reg);
        }
        reg += 1;
    }
    None
}

fn is(content: Option<u32>, value: u32) -> bool
    ensures { result ≡ is value content }
{
    match content {
        Some(other) => other == value,
        None => false,
    }
}

// The registers of a call's uses.
fn call_registers(
    alloc: Global,
    regs: &[Option<u32>],
    lir: &Lir,
) -> Result<Vec<Option<u8>>, AllocError>
    requires { length regs.now ≤ 16 }
    ensures { IfOk result (λ args. args.items ≡ map (register_in (before_call (operation_of lir.now) (map (λ o. None) regs.now))) lir.now.uses) }
{
    let mut row = Registers::from_slice(alloc, regs)?;
    row.remove_all();
    before_call(&mut row, lir.template, lir.uses.as_slice());
    let args = registers_in(alloc, row.as_slice(), lir.uses.as_slice())?;
    Ok(args)
}

fn call(alloc: Global, b: &mut Backward, index: u32, lir: &Lir) -> Result<(), Memory>
    requires few { length b.old.part.regs ≤ 16 }
    ensures step { OnOk result (b.new ≡ in_part (call_one index lir.now) b.old) }
    ensures row { OnOk result (length b.new.part.regs ≡ length b.old.part.regs) }
{
    let args = call_registers(alloc, b.part.regs.as_slice(), lir)?;
    b.call(alloc, index, lir, args.as_slice())
}

// An operation at a position.
fn operate(
    alloc: Global,
    b: &mut Backward,
    positions: &mut LateMentions<'_>,
    at: u32,
    index: u32,
    lir: &Lir,
) -> Result<(), Memory>
    requires few { length b.old.part.regs ≤ 16 }
    ensures step { OnOk result (b.new ≡ in_part (operate (last_mention positions.old) at index lir.now) b.old) }
    ensures row { OnOk result (length b.new.part.regs ≡ length b.old.part.regs) }
    ensures same { positions.new ≡ positions.old }
{
    if lir.call {
        return call(alloc, b, index, lir);
    }
    let reg = made_in(alloc, b.part.regs.as_slice(), positions, at, lir.def)?;
    b.define(alloc, index, lir, reg)?;
    take_all(alloc, b, positions, at, lir.uses.as_slice())
}

/// The operations of a node, the first of which is at a position, from the last to the first.
pub(crate) fn operate_all(
    alloc: Global,
    b: &mut Backward,
    positions: &mut LateMentions<'_>,
    first: u32,
    lirs: &[Lir],
) -> Result<(), Memory>
    requires few { length b.old.part.regs ≤ 16 }
    ensures step { OnOk result (b.new ≡ in_part (operate_all (last_mention positions.old) first 0 lirs.now) b.old) }
    ensures row { OnOk result (length b.new.part.regs ≡ length b.old.part.regs) }
    ensures same { positions.new ≡ positions.old }
{
    let mut left = lirs.len();
    while left > 0 {
        left -= 1;
        let at = behind(first, left)?;
        let index = behind(0, left)?;
        operate(alloc, b, positions, at, index, &lirs[left])?;
    }
    Ok(())
}
