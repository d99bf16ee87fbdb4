//! The node that is being walked.

ghost use Rattle.std.specs.Prelude.{◌≡◌, ◌<◌, ◌≤◌, [], ◌∷◌, ◌++◌, length, drop, Some, IfOk, OnOk};
ghost use Rattle.lir_core.specs.Flows.{operation_of};
ghost use Rattle.lir_core.specs.Spots.{get};
ghost use Rattle.loc_state.specs.Homed.{inserted};

use crate::arguments::{argument_moves, has, place_of};
use crate::homes::Homes;
use crate::registers::{Registers, register_of};
use lir_core::{Items, Line, Lir, Places, RegisterList, is_aimed};
use outside::Memory;
use std::alloc::{AllocError, Global};
use std::mem::replace;

/// A node's start places, where the values are now, the lines so far, and the registers that are named, of which those
/// from `since` on are noted for what comes.
#[derive(Drop)]
pub struct Part {
    pub start: Places,
    pub regs: Registers,
    pub homed: Homes,
    pub lines: Items<Line>,
    pub named: RegisterList,
    pub since: usize,
}

/// What a node that is ended leaves: where it started, its lines and the registers that are named.
#[derive(Drop)]
pub(crate) struct Ended {
    pub(crate) start: Places,
    pub(crate) lines: Items<Line>,
    pub(crate) named: RegisterList,
}

impl Part {
    ghost use Rattle.loc_state.specs.Steps.{begun, places, brought, evicted, dropped, defines, saving, keeps_one, keeps_all, called};
    ghost use Rattle.loc_state.specs.Lines.{place_of, aims, moves, call_lines};
    ghost use Rattle.loc_state.specs.Walked.{InRow, Matches};

    /// A node is begun.
    pub(crate) fn begin(alloc: Global, start: Places) -> Result<Part, AllocError>
        ensures { IfOk result (λ part. part ≡ begun start) }
    {
        Ok(Part {
            regs: Registers::from_slice(alloc, start.regs.as_slice())?,
            homed: Homes::from_slice(alloc, start.homed.as_slice())?,
            start,
            lines: Items::new(alloc),
            named: RegisterList::new(alloc),
            since: 0,
        })
    }

    /// The node is ended, and another is begun.
    pub(crate) fn begin_next(&mut self, alloc: Global, start: Places) -> Result<Ended, AllocError>
        ensures begun { OnOk result (self.new ≡ begun start) }
        ensures ended { IfOk result (λ ended. ended ≡ record { start = self.old.start; lines = self.old.lines; named = self.old.named }) }
    {
        self.regs.assign(alloc, start.regs.as_slice())?;
        self.homed = Homes::from_slice(alloc, start.homed.as_slice())?;
        self.since = 0;
        Ok(Ended {
            start: replace(&mut self.start, start),
            lines: replace(&mut self.lines, Items::new(alloc)),
            named: replace(&mut self.named, RegisterList::new(alloc)),
        })
    }

    /// Where the values are now.
    pub(crate) fn places(&self, alloc: Global) -> Result<Places, AllocError>
        ensures { IfOk result (λ q. q ≡ places self.now) }
    {
        Ok(Places {
            regs: self.regs.list(alloc)?,
            homed: self.homed.list(alloc)?,
        })
    }

    /// Makes room for the lines of so many operations.
    pub(crate) fn make_room(&mut self, alloc: Global, operations: usize) -> Result<(), AllocError>
        ensures { OnOk result (self.new ≡ self.old) }
    {
        let lines = replace(&mut self.lines, Items::new(alloc));
        self.lines = with_room(lines, operations.saturating_add(operations / 4))?;
        Ok(())
    }

    pub(crate) fn bring(&mut self, value: u32, reg: Option<u8>) -> Result<(), AllocError>
        requires few { length self.old.regs ≤ 16 }
        requires in_row { InRow reg self.old }
        ensures { OnOk result (self.new ≡ brought value reg self.old) }
    {
        match reg {
            None => {
                self.named.push(register_of(self.regs.as_slice(), value))?;
                Ok(())
            }
            Some(reg) => {
                self.regs.set(reg, Some(value));
                self.lines.push(Line::Load { reg, value })?;
                self.named.push(reg)?;
                Ok(())
            }
        }
    }

    // Stores a register's value where it isn't homed.
    fn store(&mut self, reg: u8, value: u32) -> Result<(), AllocError>
        ensures { OnOk result (self.new ≡ record self.old { homed = inserted value self.old.homed; lines = saving reg (Some value) self.old.homed self.old.lines }) }
    {
        if !self.homed.has(value) {
            self.lines.push(Line::Store { reg, value })?;
        }
        self.homed.insert(value)
    }

    pub(crate) fn evict(&mut self, reg: u8) -> Result<(), AllocError>
        requires { reg < length self.old.regs }
        ensures { OnOk result (self.new ≡ evicted reg self.old) }
    {
        if let Some(value) = self.regs.value(reg) {
            self.store(reg, value)?;
        }
        self.regs.set(reg, None);
        Ok(())
    }

    pub(crate) fn drop_value(&mut self, value: u32)
        ensures { self.new ≡ dropped value self.old }
    {
        self.regs.remove(value);
        self.homed.remove(value);
    }

    pub(crate) fn define(
        &mut self,
        index: u32,
        def: Option<u32>,
        reg: Option<u8>,
    ) -> Result<(), AllocError>
        requires { Matches def reg self.old }
        ensures { OnOk result (self.new ≡ defines index def reg self.old) }
    {
        self.lines.push(Line::Lir(index))?;
        if let Some(reg) = reg {
            self.regs.set(reg, def);
            self.named.push(reg)?;
        }
        self.since = self.named.len();
        Ok(())
    }

    pub(crate) fn call(
        &mut self,
        alloc: Global,
        index: u32,
        lir: &Lir,
        keep: &[u32],
    ) -> Result<(), Memory>
        requires few { length self.old.regs ≤ 16 }
        requires some { 0 < length self.old.regs }
        ensures { OnOk result (self.new ≡ called index (operation_of lir.now) keep.now self.old) }
    {
        self.keep_all(keep)?;
        self.write_call(alloc, index, lir)?;
        self.regs.remove_all();
        if let Some(value) = lir.def {
            self.regs.set(0, Some(value));
        }
        self.since = self.named.len();
        Ok(())
    }

    // Stores the values of registers that are to be kept, lowest register first.
    fn keep_all(&mut self, keep: &[u32]) -> Result<(), AllocError>
        requires { length self.old.regs ≤ 16 }
        ensures kept { OnOk result (self.new ≡ keeps_all keep.now 0 self.old.regs self.old) }
        ensures regs { OnOk result (self.new.regs ≡ self.old.regs) }
    {
        for reg in 0..self.regs.as_slice().len() as u8 {
            self.keep_one(keep, reg)?;
        }
        Ok(())
    }

    fn keep_one(&mut self, keep: &[u32], reg: u8) -> Result<(), AllocError>
        requires { reg < length self.old.regs }
        ensures { OnOk result (self.new ≡ keeps_one keep.now reg (get self.old.regs reg) self.old) }
    {
        match self.regs.value(reg) {
            Some(value) if has(keep, value) => self.store(reg, value),
            _ => Ok(()),
        }
    }

    // The lines of a call: its target, its arguments, itself.
    fn write_call(&mut self, alloc: Global, index: u32, lir: &Lir) -> Result<(), Memory>
        requires { length self.old.regs ≤ 16 }
        ensures { OnOk result (self.new ≡ record self.old { lines = (self.old.lines ++ call_lines (place_of self.old.regs) (operation_of lir.now)) ++ Line.Lir index ∷ [] }) }
    {
        let uses = lir.uses.as_slice();
        if is_aimed(lir.template) {
            self.write_aimed(alloc, uses)?;
        } else {
            self.write_moves(alloc, uses)?;
        }
        self.lines.push(Line::Lir(index))?;
        Ok(())
    }

    // The target, which is the first use, then the arguments.
    fn write_aimed(&mut self, alloc: Global, uses: &[u32]) -> Result<(), Memory>
        requires { length self.old.regs ≤ 16 }
        ensures { OnOk result (self.new
            ≡ record self.old { lines = self.old.lines ++ (aims (place_of self.old.regs) uses.now ++ moves (place_of self.old.regs) (drop 1 uses.now)) }) }
    {
        let Some((target, arguments)) = uses.split_first() else {
            return Ok(());
        };
        let target = place_of(self.regs.as_slice(), *target);
        self.lines.push(Line::Target(target))?;
        self.write_moves(alloc, arguments)
    }

    fn write_moves(&mut self, alloc: Global, arguments: &[u32]) -> Result<(), Memory>
        requires { length self.old.regs ≤ 16 }
        ensures { OnOk result (self.new ≡ record self.old { lines = self.old.lines ++ moves (place_of self.old.regs) arguments.now }) }
    {
        if !arguments.is_empty() {
            let moves = argument_moves(alloc, self.regs.as_slice(), arguments)?;
            self.lines.push(Line::Moves(moves))?;
        }
        Ok(())
    }
}

/// No items, with room for so many.
pub(crate) fn room_for<T>(alloc: Global, count: usize) -> Result<Items<T>, AllocError>
    ensures { IfOk result (λ items. items ≡ []) }
{
    Ok(Items::from_vec(Vec::with_capacity(alloc, count)?))
}

// The same items, with room for so many more.
fn with_room<T: Drop>(items: Items<T>, count: usize) -> Result<Items<T>, AllocError>
    ensures { IfOk result (λ more. more ≡ items) }
{
    let mut items = items.into_vec();
    items.reserve_exact(count)?;
    Ok(Items::from_vec(items))
}
