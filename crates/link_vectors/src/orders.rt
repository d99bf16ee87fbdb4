//! Moves in order, for `bench/order.sh`.

use lir_core::{Move, Place};
use outside::Memory;
use parallel_move::order;
use std::alloc::{AllocError, Global};

/// The place of a number: registers first, then homes.
fn place(number: u32, registers: u32) -> Place {
    if number < registers {
        Place::Reg(u8::try_from(number).unwrap_or(0))
    } else {
        Place::Home(number - registers)
    }
}

/// So many places in a row, of which each takes what stands a third of the row further on.
fn turned(alloc: Global, registers: u32, homes: u32) -> Result<Vec<Move>, AllocError> {
    let count = registers.saturating_add(homes);
    let third = count / 3;
    let mut moves = Vec::new(alloc);
    for number in 0..count {
        let next = number.saturating_add(third);
        let from = if next < count { next } else { next - count };
        moves.push(Move {
            to: place(number, registers),
            from: place(from, registers),
        })?;
    }
    Ok(moves)
}

/// How many steps a permutation of places takes, ordered so often.
pub(crate) fn ordered(
    alloc: Global,
    registers: u32,
    homes: u32,
    times: u32,
) -> Result<String, Memory> {
    let moves = turned(alloc, registers, homes)?;
    let mut count = 0;
    for _ in 0..times {
        count = order(alloc, moves.as_slice())?.len();
    }
    Ok(format!(in alloc; "{count} steps\n")?)
}
