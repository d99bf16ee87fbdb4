//! Start places.

ghost use Rattle.std.specs.Prelude.{◌≡◌, ◌<◌, ◌≤◌, [], length, map, filter, cond, Some, IfOk, IfSome, OnOk, slice_get};
ghost use Rattle.lir_core.specs.Rows.{has_bit, live_into};
ghost use Rattle.trace_needs.specs.Asked.{need_told};
ghost use Rattle.loc_state.specs.Homed.{inserted, all_inserted};
ghost use Rattle.linear_scan.specs.Policy.{from};
ghost use Rattle.linear_scan.specs.Starts.{if_live, hinted, param_reg, start_behind, start_afresh};
ghost use Rattle.linear_scan.specs.Made.{lent_places};

use crate::policy::is_needed;
use lir_core::{Items, LiveSets, Places, next_live};
use loc_state::{Homes, has_register, lowest_empty, register_of};
use outside::Memory;
use std::alloc::{AllocError, Global};
use trace_needs::Needs;

/// A node that is begun, and its parameters.
#[derive(Clone, Copy)]
pub(crate) struct Head<'a> {
    pub(crate) live: &'a LiveSets,
    pub(crate) node: u32,
    pub(crate) params: &'a [u32],
}

/// Places behind which a node starts.
#[derive(Clone, Copy)]
pub(crate) struct Behind<'a> {
    pub(crate) regs: &'a [Option<u32>],
    pub(crate) homed: &'a [u32],
}

/// Places that are being made.
#[derive(Drop)]
pub(crate) struct Start {
    regs: Vec<Option<u32>>,
    homed: Homes,
}

impl Start {
    ghost use Rattle.std.specs.Prelude.{replicate, None};
    ghost use Rattle.lir_core.specs.declared.places.Places.{Places};
    ghost use Rattle.linear_scan.specs.Starts.{only_live, with_value, with_param, with_params};
    ghost use Rattle.linear_scan.specs.Made.{made};

    // What is live into a node where it was.
    fn live(alloc: Global, head: &Head, q: &Behind) -> Result<Start, AllocError>
        ensures { IfOk result (λ s. made s ≡ only_live (has_bit head.now.live.now head.now.node) (lent_places q.now)) }
    {
        Ok(Start {
            regs: live_registers(alloc, head, q.regs)?,
            homed: live_homes(alloc, head, q.homed)?,
        })
    }

    // So many empty registers, and what is live into a node homed.
    fn homed(alloc: Global, head: &Head, values: u32, regs: u8) -> Result<Start, AllocError>
        ensures { IfOk result (λ s. made s ≡ record { regs = replicate regs None; homed = all_inserted (live_into values head.now.live.now head.now.node) [] }) }
    {
        Ok(Start {
            regs: vec![in alloc; None; regs as usize]?,
            homed: all_live(alloc, head, values)?,
        })
    }

    // A parameter that has a need takes a register, or is homed.
    fn add(
        &mut self,
        positions: &Needs,
        at: u32,
        value: u32,
        reg: Option<u8>,
    ) -> Result<(), AllocError>
        requires { IfSome reg (λ r. r < length self.old.regs.items) }
        ensures step { OnOk result (made self.new ≡ with_param (from (need_told positions.now) at) value reg (made self.old)) }
        ensures row { OnOk result (length self.new.regs.items ≡ length self.old.regs.items) }
    {
        if !is_needed(positions, at, value) {
            return Ok(());
        }
        match reg {
            Some(reg) => {
                self.regs[reg as usize] = Some(value);
                Ok(())
            }
            None => self.homed.insert(value),
        }
    }

    // The parameters, each in its argument's register in the hint where that is empty.
    fn add_all(
        &mut self,
        positions: &Needs,
        at: u32,
        params: &[u32],
        hint: &[Option<u32>],
        arguments: &[u32],
    ) -> Result<(), AllocError>
        requires few { length self.old.regs.items ≤ 16 }
        requires hint { length hint.now ≤ length self.old.regs.items }
        ensures step { OnOk result (made self.new ≡ with_params (from (need_told positions.now) at) hint.now arguments.now 0 params.now (made self.old)) }
        ensures row { OnOk result (length self.new.regs.items ≡ length self.old.regs.items) }
    {
        for (i, value) in params.iter().enumerate() {
            let reg = param_reg(hint, number_at(arguments, i), self.regs.as_slice());
            self.add(positions, at, *value, reg)?;
        }
        Ok(())
    }

    fn into_places(self, alloc: Global) -> Result<Places, AllocError>
        ensures { IfOk result (λ q. q ≡ made self) }
    {
        let Start { regs, homed } = self;
        Ok(Places {
            regs: Items::from_vec(regs),
            homed: homed.list(alloc)?,
        })
    }
}

/// Where a node starts behind other places, at a position.
pub(crate) fn start_behind(
    alloc: Global,
    positions: &Needs,
    at: u32,
    head: &Head,
    arguments: &[u32],
    q: &Behind,
) -> Result<Places, AllocError>
    requires { length q.now.regs.now ≤ 16 }
    ensures start { IfOk result (λ s. s ≡ start_behind (from (need_told positions.now) at) (has_bit head.now.live.now head.now.node) head.now.params.now arguments.now (lent_places q.now)) }
    ensures row { IfOk result (λ s. length s.regs ≡ length q.now.regs.now) }
{
    let mut start = Start::live(alloc, head, q)?;
    start.add_all(positions, at, head.params, q.regs, arguments)?;
    start.into_places(alloc)
}

/// Where a node starts with no hint.
pub(crate) fn start_afresh(
    alloc: Global,
    positions: &Needs,
    at: u32,
    head: &Head,
    values: u32,
    regs: u8,
) -> Result<Places, AllocError>
    requires { regs ≤ 16 }
    ensures start { IfOk result (λ s. s ≡ start_afresh (from (need_told positions.now) at) regs (live_into values head.now.live.now head.now.node) head.now.params.now) }
    ensures row { IfOk result (λ s. length s.regs ≡ regs) }
{
    let mut start = Start::homed(alloc, head, values, regs)?;
    start.add_all(positions, at, head.params, &[], &[])?;
    start.into_places(alloc)
}

fn if_live(head: &Head, content: Option<u32>) -> Option<u32>
    ensures { result ≡ if_live (has_bit head.now.live.now head.now.node) content }
{
    match content {
        Some(value) if head.live.has(head.node, value) => Some(value),
        _ => None,
    }
}

// What is live in registers.
fn live_registers(
    alloc: Global,
    head: &Head,
    regs: &[Option<u32>],
) -> Result<Vec<Option<u32>>, AllocError>
    ensures { IfOk result (λ row. row.items ≡ map (if_live (has_bit head.now.live.now head.now.node)) regs.now) }
{
    let mut row = Vec::from_slice(alloc, regs)?;
    keep_live(head, row.as_mut_slice());
    Ok(row)
}

// Empties what isn't live.
fn keep_live(head: &Head, row: &mut [Option<u32>])
    ensures { row.new ≡ map (if_live (has_bit head.now.live.now head.now.node)) row.old }
{
    for content in row.iter_mut() {
        *content = if_live(head, *content);
    }
}

// What is live of homed values.
fn live_homes(alloc: Global, head: &Head, homed: &[u32]) -> Result<Homes, AllocError>
    ensures { IfOk result (λ homes. homes ≡ all_inserted (filter (has_bit head.now.live.now head.now.node) homed.now) []) }
{
    let mut homes = Homes::new(alloc);
    for value in homed {
        insert_live(&mut homes, head, *value)?;
    }
    Ok(homes)
}

// What is live of so many values.
fn all_live(alloc: Global, head: &Head, values: u32) -> Result<Homes, AllocError>
    ensures { IfOk result (λ homes. homes ≡ all_inserted (live_into values head.now.live.now head.now.node) []) }
{
    let mut homes = Homes::new(alloc);
    let mut from = 0;
    while let Some(value) = next_live(head.live, head.node, from, values) {
        homes.insert(value)?;
        from = value + 1;
    }
    Ok(homes)
}

fn insert_live(homes: &mut Homes, head: &Head, value: u32) -> Result<(), AllocError>
    ensures { OnOk result (homes.new ≡ cond (has_bit head.now.live.now head.now.node value) (inserted value homes.old) homes.old) }
{
    if head.live.has(head.node, value) {
        homes.insert(value)
    } else {
        Ok(())
    }
}

// The register of a parameter, by its argument if it has one.
fn param_reg(hint: &[Option<u32>], argument: Option<u32>, regs: &[Option<u32>]) -> Option<u8>
    requires few { length regs.now ≤ 16 }
    requires hint { length hint.now ≤ length regs.now }
    ensures reg { result ≡ param_reg hint.now argument regs.now }
    ensures below { IfSome result (λ r. r < length regs.now) }
{
    match argument {
        Some(value) => hinted(hint, value, regs),
        None => lowest_empty(regs),
    }
}

// A value's register in the hint where that is empty, else the lowest empty one.
fn hinted(hint: &[Option<u32>], value: u32, regs: &[Option<u32>]) -> Option<u8>
    requires few { length regs.now ≤ 16 }
    requires hint { length hint.now ≤ length regs.now }
    ensures reg { result ≡ hinted hint.now value regs.now }
    ensures below { IfSome result (λ r. r < length regs.now) }
{
    if has_register(hint, value) {
        let reg = register_of(hint, value);
        if regs[reg as usize].is_none() {
            return Some(reg);
        }
    }
    lowest_empty(regs)
}

/// The number of that index, if there is one.
pub(crate) fn number_at(numbers: &[u32], index: usize) -> Option<u32>
    ensures { result ≡ slice_get numbers.now index }
{
    let number = numbers.get(index)?;
    Some(*number)
}
