//! Lines in front of those that are written.

ghost use Rattle.std.specs.Prelude.{◌≡◌, ◌≤◌, ◌++◌, length, OnOk};
ghost use Rattle.loc_back.specs.Steps.{storing, loading, opening, names_of, leaving, reloads, reload, result_moved, result_stored};

use crate::front_items::FrontItems;
use crate::front_registers::FrontRegisters;
use crate::part::{Loading, Stage};
use crate::scratch::Scratch;
use crate::seating::keep_others;
use lir_core::Line;
use loc_state::{has_register, register_of};
use std::alloc::AllocError;
use value_sets::ValueSet;

/// A register's value, if it has one, is to be loaded again.
pub(crate) fn leave(
    loads: &mut Scratch<Loading>,
    reg: u8,
    content: Option<u32>,
) -> Result<(), AllocError>
    ensures { OnOk result (loads.new ≡ loads.old ++ leaving reg content) }
{
    match content {
        Some(value) => {
            loads.push(Loading { reg, value })?;
            Ok(())
        }
        None => Ok(()),
    }
}

/// Writes loads, in order.
pub(crate) fn load_again(lines: &mut FrontItems<Line>, loads: &[Loading]) -> Result<(), AllocError>
    ensures { OnOk result (lines.new ≡ loading loads.now lines.old) }
{
    let mut left = loads.len();
    while left > 0 {
        left -= 1;
        let Loading { reg, value } = loads[left];
        lines.push_front(Line::Load { reg, value })?;
    }
    Ok(())
}

/// Writes an operation that is begun and the store of its definition.
pub(crate) fn open(lines: &mut FrontItems<Line>, stage: Stage) -> Result<(), AllocError>
    ensures { OnOk result (lines.new ≡ opening stage lines.old) }
{
    match stage {
        Stage::Operation(begun) => {
            store(lines, begun.reg, begun.stored)?;
            lines.push_front(Line::Lir(begun.index))?;
            Ok(())
        }
        Stage::Behind => Ok(()),
        Stage::End => Ok(()),
        Stage::Done => Ok(()),
    }
}

pub(crate) fn store(
    lines: &mut FrontItems<Line>,
    reg: Option<u8>,
    stored: Option<u32>,
) -> Result<(), AllocError>
    ensures { OnOk result (lines.new ≡ storing reg stored lines.old) }
{
    if let Some(reg) = reg {
        if let Some(value) = stored {
            lines.push_front(Line::Store { reg, value })?;
            return Ok(());
        }
    }
    Ok(())
}

/// Names the register of a definition.
pub(crate) fn name(named: &mut FrontRegisters, stage: Stage) -> Result<(), AllocError>
    ensures { OnOk result (named.new ≡ names_of stage ++ named.old) }
{
    if let Stage::Operation(begun) = stage {
        if let Some(reg) = begun.reg {
            named.push_front(reg)?;
            return Ok(());
        }
    }
    Ok(())
}

/// Names registers that were noted.
pub(crate) fn name_all(named: &mut FrontRegisters, noted: &[u8]) -> Result<(), AllocError>
    ensures { OnOk result (named.new ≡ noted.now ++ named.old) }
{
    let mut left = noted.len();
    while left > 0 {
        left -= 1;
        named.push_front(noted[left])?;
    }
    Ok(())
}

/// Loads all registers but a definition's, lowest first.
pub(crate) fn reload_all(
    lines: &mut FrontItems<Line>,
    def: Option<u32>,
    regs: &[Option<u32>],
) -> Result<(), AllocError>
    requires { length regs.now ≤ 16 }
    ensures { OnOk result (lines.new ≡ reloads def 0 regs.now lines.old) }
{
    let mut left = regs.len();
    while left > 0 {
        left -= 1;
        reload(lines, left as u8, keep_others(def, regs[left]))?;
    }
    Ok(())
}

pub(crate) fn reload(
    lines: &mut FrontItems<Line>,
    reg: u8,
    content: Option<u32>,
) -> Result<(), AllocError>
    ensures { OnOk result (lines.new ≡ reload reg content lines.old) }
{
    match content {
        Some(value) => {
            lines.push_front(Line::Load { reg, value })?;
            Ok(())
        }
        None => Ok(()),
    }
}

/// The result of a call goes from X0 to its register.
pub(crate) fn move_result(
    lines: &mut FrontItems<Line>,
    def: Option<u32>,
    regs: &[Option<u32>],
) -> Result<(), AllocError>
    requires { length regs.now ≤ 16 }
    ensures { OnOk result (lines.new ≡ result_moved regs.now def lines.old) }
{
    let Some(value) = def else {
        return Ok(());
    };
    if has_register(regs, value) {
        let reg = register_of(regs, value);
        if reg == 0 {
            return Ok(());
        }
        lines.push_front(Line::Result(reg))?;
        return Ok(());
    }
    Ok(())
}

/// The result of a call is stored from X0 where it is homed.
pub(crate) fn store_result(
    lines: &mut FrontItems<Line>,
    def: Option<u32>,
    homed: &ValueSet,
) -> Result<(), AllocError>
    ensures { OnOk result (lines.new ≡ result_stored homed.now def lines.old) }
{
    let Some(value) = def else {
        return Ok(());
    };
    if homed.has(value) {
        lines.push_front(Line::Store { reg: 0, value })?;
        return Ok(());
    }
    Ok(())
}
