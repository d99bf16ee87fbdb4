//! The moves of an edge with few parameters, without a table.

ghost use Rattle.std.specs.Prelude.{◌≡◌, ◌<◌, ◌≤◌, [], ◌∷◌, ◌++◌, true, length, filter, OnOk};
ghost use Rattle.lir_core.specs.declared.places.Place.TheVariants.{Reg, Home};
ghost use Rattle.lir_core.specs.Spots.{argument_of, IsRising};
ghost use Rattle.parallel_move.specs.Order.{is_moving};
ghost use Rattle.boundary_resolve.specs.Found.{is_in, is_home, IsRegister, moving_registers, moving_homes};
ghost use Rattle.boundary_resolve.specs.Moves.{place_of, register_of, register_or_home, edge_moves, FewRegs};

use crate::moves::{FEW, argument_of};
use lir_core::{Move, Place, Places};
use rising_lists::{Finder, is_rising};
use std::alloc::AllocError;

/// Whether an edge has few parameters, and homed values before it that rise, if any is wanted behind it.
pub(crate) fn is_near(from: &Places, to: &Places, params: &[u32]) -> bool
    ensures { result ≡ true → 0 < length to.now.homed → IsRising from.now.homed }
{
    params.len() <= FEW && (to.homed.as_slice().is_empty() || is_rising(from.homed.as_slice()))
}

/// Puts the moves of an edge behind others, but for those from a place to itself.
pub(crate) fn push_near(
    moves: &mut Vec<Move>,
    from: &Places,
    to: &Places,
    params: &[u32],
    args: &[u32],
) -> Result<(), AllocError>
    ensures { FewRegs from.now → FewRegs to.now → (0 < length to.now.homed → IsRising from.now.homed)
        → OnOk result (moves.new.items ≡ moves.old.items ++ filter is_moving (edge_moves from.now to.now (argument_of params.now args.now))) }
{
    push_registers(moves, from, to.regs.as_slice(), params, args)?;
    push_homes(moves, from, to.homed.as_slice(), params, args)
}

#[inline(always)]
fn push_registers(
    moves: &mut Vec<Move>,
    from: &Places,
    regs: &[Option<u32>],
    params: &[u32],
    args: &[u32],
) -> Result<(), AllocError>
    ensures { FewRegs from.now → length regs.now ≤ 16 → OnOk result (moves.new.items ≡ moves.old.items ++ moving_registers from.now params.now args.now regs.now) }
{
    for (register, held) in regs.iter().enumerate() {
        if let Some(value) = held {
            push_register(moves, from, register, argument_of(params, args, *value))?;
        }
    }
    Ok(())
}

// Puts the move of a value to a register behind others, if it isn't there.
#[inline(always)]
fn push_register(
    moves: &mut Vec<Move>,
    from: &Places,
    register: usize,
    value: u32,
) -> Result<(), AllocError>
    ensures { FewRegs from.now → register < 16 → OnOk result (moves.new.items ≡ moves.old.items ++ filter is_moving (record { to = Reg register; from = place_of from.now value } ∷ [])) }
{
    let found = found_in(from.regs.as_slice(), value);
    if is_in(found, register) {
        return Ok(());
    }
    let Ok(register) = u8::try_from(register) else {
        return Ok(());
    };
    moves.push(Move {
        to: Place::Reg(register),
        from: register_or_home(found, value),
    })?;
    Ok(())
}

#[inline(always)]
fn push_homes(
    moves: &mut Vec<Move>,
    from: &Places,
    homed: &[u32],
    params: &[u32],
    args: &[u32],
) -> Result<(), AllocError>
    ensures { FewRegs from.now → (0 < length homed.now → IsRising from.now.homed)
        → OnOk result (moves.new.items ≡ moves.old.items ++ moving_homes from.now params.now args.now homed.now) }
{
    let mut finder = Finder::new(from.homed.as_slice());
    for value in homed {
        let argument = argument_of(params, args, *value);
        if !finder.has(*value) || argument != *value {
            push_home(moves, from, *value, argument)?;
        }
    }
    Ok(())
}

// Puts the move of a value to a home behind others, if it isn't there.
fn push_home(moves: &mut Vec<Move>, from: &Places, home: u32, value: u32) -> Result<(), AllocError>
    ensures { FewRegs from.now → OnOk result (moves.new.items ≡ moves.old.items ++ filter is_moving (record { to = Home home; from = place_of from.now value } ∷ [])) }
{
    let found = found_in(from.regs.as_slice(), value);
    if is_home(found, value, home) {
        return Ok(());
    }
    moves.push(Move {
        to: Place::Home(home),
        from: register_or_home(found, value),
    })?;
    Ok(())
}

/// The number of the lowest register that has a value.
pub(crate) fn found_in(regs: &[Option<u32>], value: u32) -> Option<usize>
    ensures { result ≡ register_of regs.now 0 value }
{
    for (register, held) in regs.iter().enumerate() {
        if let Some(found) = held
            && *found == value
        {
            return Some(register);
        }
    }
    None
}

// Whether a register is the one that was found for a value.
fn is_in(found: Option<usize>, register: usize) -> bool
    ensures { result ≡ is_in found register }
{
    match found {
        Some(found) => register == found,
        None => false,
    }
}

// Whether a home is that of a value for which no register was found.
fn is_home(found: Option<usize>, value: u32, home: u32) -> bool
    ensures { result ≡ is_home found value home }
{
    match found {
        Some(_) => false,
        None => home == value,
    }
}

/// The register that was found for a value, else its home.
pub(crate) fn register_or_home(found: Option<usize>, value: u32) -> Place
    ensures { IsRegister found → result ≡ register_or_home found value }
{
    let Some(register) = found else {
        return Place::Home(value);
    };
    match u8::try_from(register) {
        Ok(register) => Place::Reg(register),
        Err(_) => Place::Home(value),
    }
}
