//! Where calls take their arguments, and from where.

ghost use Rattle.std.specs.Prelude.{◌≡◌, ◌<◌, ◌≤◌, ◌^◌, length, IfOk, true};
ghost use Rattle.block_runs.specs.Live.{has};
ghost use Rattle.loc_state.specs.Lines.{place_of, argument_moves};

use crate::registers::{has_register, register_of};
use lir_core::{Items, Move, Place, argument_place};
use outside::Memory;
use std::alloc::Global;

/// Whether a number is in a list.
pub fn has(numbers: &[u32], number: u32) -> bool
    ensures { result ≡ has numbers.now number }
{
    for other in numbers {
        if *other == number {
            return true;
        }
    }
    false
}

/// Where a value is taken from.
pub fn place_of(regs: &[Option<u32>], value: u32) -> Place
    requires { length regs.now ≤ 16 }
    ensures { result ≡ place_of regs.now value }
{
    if has_register(regs, value) {
        Place::Reg(register_of(regs, value))
    } else {
        Place::Home(value)
    }
}

/// The moves of a call's arguments.
pub fn argument_moves(
    alloc: Global,
    regs: &[Option<u32>],
    arguments: &[u32],
) -> Result<Items<Move>, Memory>
    requires { length regs.now ≤ 16 }
    ensures { IfOk result (λ moves. moves ≡ argument_moves (place_of regs.now) 0 arguments.now) }
{
    if u32::try_from(arguments.len()).is_err() {
        return Err(Memory);
    }
    let mut moves = Items::new(alloc);
    let mut index: u32 = 0;
    for value in arguments {
        moves.push(Move {
            to: argument_place(index),
            from: place_of(regs, *value),
        })?;
        index += 1;
    }
    Ok(moves)
}
