//! Registers and homes that are given.

ghost use Rattle.std.specs.Prelude.{◌≡◌, [], ◌∷◌, length, map, IfOk, OnOk, slice_set};
ghost use Rattle.lir_core.specs.Spots.{get};
ghost use Rattle.loc_state.specs.Steps.{saved};
ghost use Rattle.loc_back.specs.Steps.{other, all_saved, seated, unseated, no_param, seated_new, seated_news};

use loc_state::{Registers, has, has_register};
use std::alloc::{AllocError, Global};
use value_sets::ValueSet;

/// What a register has; nothing where there is no such register.
pub(crate) fn value_at(regs: &[Option<u32>], reg: u8) -> Option<u32>
    ensures { result ≡ get regs.now reg }
{
    match regs.get(reg as usize) {
        Some(content) => *content,
        None => None,
    }
}

/// Writes a register, if there is such a register.
pub(crate) fn put(regs: &mut Registers, reg: u8, value: Option<u32>)
    ensures { regs.new ≡ slice_set regs.old reg value }
{
    if (reg as usize) < regs.as_slice().len() {
        regs.set(reg, value);
    }
}

/// A register's value joins the homed ones.
pub(crate) fn save(homed: &mut ValueSet, content: Option<u32>) -> Result<(), AllocError>
    ensures { OnOk result (homed.new ≡ saved content homed.old) }
{
    match content {
        Some(value) => homed.insert(value),
        None => Ok(()),
    }
}

/// A register's value, unless it is the definition.
pub(crate) fn keep_others(def: Option<u32>, content: Option<u32>) -> Option<u32>
    ensures { result ≡ other def content }
{
    let Some(value) = def else {
        return content;
    };
    match content {
        Some(other) if other != value => Some(other),
        _ => None,
    }
}

/// The values of registers but for the definition join the homed ones.
pub(crate) fn save_all(
    homed: &mut ValueSet,
    def: Option<u32>,
    regs: &[Option<u32>],
) -> Result<(), AllocError>
    ensures { OnOk result (homed.new ≡ all_saved def regs.now homed.old) }
{
    for content in regs {
        save(homed, keep_others(def, *content))?;
    }
    Ok(())
}

/// Uses go to their registers.
pub(crate) fn seat(regs: &mut Registers, uses: &[u32], args: &[Option<u8>])
    ensures step { regs.new ≡ seated uses.now args.now regs.old }
    ensures row { length regs.new ≡ length regs.old }
{
    for i in 0..uses.len().min(args.len()) {
        seat_one(regs, uses[i], args[i]);
    }
}

fn seat_one(regs: &mut Registers, value: u32, reg: Option<u8>)
    ensures { regs.new ≡ seated (value ∷ []) (reg ∷ []) regs.old }
{
    match reg {
        Some(reg) => put(regs, reg, Some(value)),
        None => {}
    }
}

/// Uses that have no register are homed.
pub(crate) fn unseat(
    homed: &mut ValueSet,
    uses: &[u32],
    args: &[Option<u8>],
) -> Result<(), AllocError>
    ensures { OnOk result (homed.new ≡ unseated uses.now args.now homed.old) }
{
    for i in 0..uses.len().min(args.len()) {
        unseat_one(homed, uses[i], args[i])?;
    }
    Ok(())
}

fn unseat_one(homed: &mut ValueSet, value: u32, reg: Option<u8>) -> Result<(), AllocError>
    ensures { OnOk result (homed.new ≡ unseated (value ∷ []) (reg ∷ []) homed.old) }
{
    match reg {
        Some(_) => Ok(()),
        None => homed.insert(value),
    }
}

/// The registers without parameters.
pub fn leave_params(
    alloc: Global,
    regs: &[Option<u32>],
    params: &[u32],
) -> Result<Registers, AllocError>
    ensures step { IfOk result (λ left. left ≡ map (no_param params.now) regs.now) }
    ensures row { IfOk result (λ left. length left ≡ length regs.now) }
{
    let mut left = Registers::from_slice(alloc, regs)?;
    drop_params(&mut left, params);
    Ok(left)
}

/// Parameters leave their registers.
pub(crate) fn drop_params(regs: &mut Registers, params: &[u32])
    ensures step { regs.new ≡ map (no_param params.now) regs.old }
    ensures row { length regs.new ≡ length regs.old }
{
    for param in params {
        regs.remove(*param);
    }
}

/// Values that are in no register go to those that are given.
pub(crate) fn seat_new(regs: &mut Registers, values: &[u32], args: &[Option<u8>])
    ensures step { regs.new ≡ seated_news values.now args.now regs.old }
    ensures row { length regs.new ≡ length regs.old }
{
    for i in 0..values.len().min(args.len()) {
        seat_new_one(regs, values[i], args[i]);
    }
}

/// A value that is in no register goes to the one that is given.
pub fn seat_new_one(regs: &mut Registers, value: u32, reg: Option<u8>)
    ensures step { regs.new ≡ seated_new value reg regs.old }
    ensures row { length regs.new ≡ length regs.old }
{
    let Some(reg) = reg else {
        return;
    };
    if !has_register(regs.as_slice(), value) {
        put(regs, reg, Some(value));
    }
}
